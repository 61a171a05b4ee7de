// A flat shelf that is filled, emptied and filled again.
use amount::grams::Grams;
use shelf::Shelf;
use shelf::flat::FlatShelf;
use shelf::records::{Bin, Grant, NewBin};
use std::test::Fail;

#[test]
fn a_freed_place_serves_again(rt: HostRuntime) -> Result<(), Fail> {
    let zero = Grams::default();
    let mut bins = [Bin::default(); 2];
    let mut grants: [Option<Grant<Grams>>; 3] = [None, None, None];
    let mut shelf = FlatShelf::new(&mut bins, &mut grants);
    let five = Grams::new(5)?;
    let low = NewBin {
        min: zero,
        max: five,
        start: zero,
    };
    let high = NewBin { start: five, ..low };
    assert!(rt;
        shelf.add_bin(low).is_ok() && shelf.add_bin(high).is_ok() && shelf.add_bin(low).is_err()
    );
    assert!(rt;
        shelf.put(1, 8, five).is_ok()
            && shelf.put(0, 7, zero).is_ok()
            && shelf.put(1, 7, five).is_ok()
    );
    assert!(rt; shelf.put(0, 9, five).is_err() && shelf.grant_count() == 3);
    assert!(rt;
        shelf.take(0, 7).is_some() && shelf.take(0, 7).is_none() && shelf.grant_count() == 2
    );
    assert!(rt;
        shelf.put(2, 9, five).is_err()
            && shelf.put(1, 7, five).is_err()
            && shelf.put(0, 9, five).is_ok()
    );
    assert!(rt; shelf.another_holds(1, 7) && !shelf.another_holds(0, 9));
    assert!(rt; shelf.lowest_bin(7).ok_or("no bin")? == 1 && shelf.lowest_bin(3).is_none());
    Ok(())
}
