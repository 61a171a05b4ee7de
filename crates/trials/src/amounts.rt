// The making of amounts, and trays that carry over.
use amount::grams::Grams;
use amount::trays::Trays;
use amount::{Amount, Counted};
use refusal::Refusal;
use std::test::Fail;

// The number of a refusal, 0 where an amount was made: one number for both cases keeps each line below a plain figure.
fn refused<A: Drop>(made: Result<A, Refusal>) -> u32 {
    match made {
        Ok(_) => 0,
        Err(why) => why.number(),
    }
}

#[test]
fn grams_are_made_up_to_the_limit(rt: HostRuntime) {
    assert_eq!(rt; refused(Grams::new(1_000_000_000_000)), 0);
    assert_eq!(rt; refused(Grams::new(1_000_000_000_001)), 3);
    assert_eq!(rt; refused(Grams::new(-1_000_000_000_000)), 0);
    assert_eq!(rt; refused(Grams::new(-999_999_999_999_999_999)), 3);
}

#[test]
fn trays_are_refused_over_the_limit_before_uneven(rt: HostRuntime) {
    assert_eq!(rt; refused(Trays::new(0, 23)), 0);
    assert_eq!(rt; refused(Trays::new(0, 24)), 16);
    assert_eq!(rt; refused(Trays::new(1_000_000, 0)), 0);
    assert_eq!(rt; refused(Trays::new(1_000_000, 24)), 3);
    assert_eq!(rt;
        refused(Trays::new(999_999_999_999_999_999, 4_294_967_295)),
        3
    );
}

#[test]
fn pieces_divide_downwards(rt: HostRuntime) -> Result<(), Fail> {
    let one = Trays::new(0, 1)?;
    let (trays, loose) = one.opposite().split();
    assert!(rt; trays == -1 && loose == 23);
    let sum = Trays::new(0, 23)?.checked_add(one).ok_or("no sum")?;
    let (trays, loose) = sum.split();
    assert!(rt; trays == 1 && loose == 0);
    Ok(())
}

#[test]
fn a_sum_past_twice_the_limit_is_none(rt: HostRuntime) -> Result<(), Fail> {
    let most = Grams::new(1_000_000_000_000)?;
    let twice = most.checked_add(most).ok_or("no sum")?;
    assert!(rt; twice.number() == 2_000_000_000_000);
    assert!(rt; twice.checked_add(Grams::new(1)?).is_none());
    assert!(rt; !twice.within_limit() && twice.opposite().less_than(most));
    Ok(())
}
