// Lines that are read, with the places of their faults, and calls that are written.
use forms::calls::{Call, Figures, Kind};
use forms::{Unreadable, read, write};
use std::test::Fail;

// The place of a fault, or the length of the line and one more where it can be read: one number for both cases keeps
// each line below a plain figure.
fn place(opened: Option<Kind>, line: &[u8]) -> usize {
    match read(opened, line) {
        Ok(_) => line.len().saturating_add(1),
        Err(fault) => fault.place,
    }
}

#[test]
fn faults_have_their_places(rt: HostRuntime) {
    assert_eq!(rt; place(None, b"(house 7 (kind g) (shelf flat 2 64))"), 37);
    assert_eq!(rt; place(None, b"(report 0)"), 1);
    assert_eq!(rt; place(Some(Kind::Grams), b""), 0);
    assert_eq!(rt; place(Some(Kind::Grams), b"(report"), 7);
    assert_eq!(rt; place(Some(Kind::Grams), b"(report 01)"), 9);
    assert_eq!(rt; place(Some(Kind::Grams), b"(report  0)"), 8);
    assert_eq!(rt; place(Some(Kind::Grams), b"(report 4294967296)"), 17);
    assert_eq!(rt;
        place(
            Some(Kind::Grams),
            b"(lay (min (g -0)) (max (g 20)) (now (g 15)))",
        ),
        14
    );
    assert_eq!(rt;
        place(
            Some(Kind::Grams),
            b"(lay (min (g 1000000000000000000)) (max (g 20)) (now (g 15)))",
        ),
        31
    );
    assert_eq!(rt;
        place(
            Some(Kind::Grams),
            b"(lay (min (tl 1 0)) (max (tl 2 0)) (now (tl 1 5)))",
        ),
        11
    );
    assert_eq!(rt; place(Some(Kind::Trays), b"(report 0)\xff"), 10);
    assert_eq!(rt;
        place(Some(Kind::Grams), b"(house 8 (kind g) (shelf flat 2 64))"),
        1
    );
}

#[test]
fn words_are_parts_of_the_line(rt: HostRuntime) -> Result<(), Fail> {
    let reading = read(None, b"(house 7 (kind g) (shelf flat 2 64))")?;
    assert!(rt; reading.words.len() == 8);
    assert!(rt; reading.words.get(1).ok_or("no word")? == b"7".as_slice());
    assert!(rt; reading.words.get(5).ok_or("no word")? == b"flat".as_slice());
    assert!(rt; reading.words.get(8).is_none());
    Ok(())
}

#[test]
fn a_short_buffer_is_left_alone(rt: HostRuntime) {
    let mut out = [b'.'; 10];
    let written = write(Some(Kind::Trays), &Call::Report { bin: 12 }, &mut out);
    assert!(rt; matches!(written, Err(Unreadable { place: 0 })) && out == [b'.'; 10]);
    let written = write(Some(Kind::Trays), &Call::Report { bin: 3 }, &mut out);
    assert!(rt; matches!(written, Ok(10)) && out == *b"(report 3)");
    let mixed = Call::Lay {
        min: Figures::Grams(1),
        max: Figures::Trays { trays: 1, loose: 0 },
        now: Figures::Grams(1),
    };
    assert!(rt;
        matches!(
            write(Some(Kind::Grams), &mixed, &mut out),
            Err(Unreadable { place: 0 })
        )
    );
}
