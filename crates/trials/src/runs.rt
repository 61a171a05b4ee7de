// Whole runs, from the bytes read to the bytes printed.
use house::run;
use std::alloc::Global;
use std::process::Abort;
use std::test::Fail;

// Whether a run on the text prints what is expected.
fn prints(rt: &impl Abort, heap: Global, text: &[u8], expected: &str) -> Result<(), Fail> {
    let out = run(heap, text)?;
    assert!(rt; out.as_str() == expected);
    Ok(())
}

#[test]
fn trays_are_laid_and_reported(rt: HostRuntime) -> Result<(), Fail> {
    prints(
        &rt,
        rt.alloc(),
        b"(house 8 (kind tl) (shelf chain 1 16))
(house 8 (kind tl) (shelf flat 0 16))
(house 8 (kind tl) (shelf flat 1 15))
(house 8 (kind tl) (shelf flat 1 16))
(lay (min (tl 0 0)) (max (tl 1000000 24)) (now (tl 0 24)))
(lay (min (tl 0 24)) (max (tl 1000001 0)) (now (tl 0 0)))
(lay (min (tl 2 0)) (max (tl 1 0)) (now (tl 1 5)))
(lay (min (tl -2 1)) (max (tl 40 0)) (now (tl -1 23)))
(lay (min (tl 0 0)) (max (tl 40 0)) (now (tl 12 6)))
(report 0)
(report 1)
(house 9 (kind g) (shelf flat 2 64))
(report 0",
        "(refused 1)
(refused 1)
(refused 1)
(opened 8)
(refused 3)
(refused 16)
(refused 2)
(laid 0)
(refused 5)
(bin 0 (min (tl -2 1)) (max (tl 40 0)) (inf (tl -1 23)) (val (tl -1 23)) (sup (tl -1 23)))
(refused 10)
(refused 17 (at 1))
(refused 17 (at 9))
",
    )
}

#[test]
fn lines_end_in_a_byte_of_their_own(rt: HostRuntime) -> Result<(), Fail> {
    prints(&rt, rt.alloc(), b"", "")?;
    prints(&rt, rt.alloc(), b"\n", "(refused 17 (at 0))\n")?;
    prints(
        &rt,
        rt.alloc(),
        b"(house 4294967295 (kind g) (shelf flat 512 2048))\r\n",
        "(refused 17 (at 49))\n",
    )?;
    prints(
        &rt,
        rt.alloc(),
        b"(house 4294967295 (kind g) (shelf flat 512 2048))",
        "(opened 4294967295)\n",
    )
}

#[test]
fn input_is_read_up_to_its_limit(rt: HostRuntime) -> Result<(), Fail> {
    let mut text = vec![in rt.alloc(); b'('; 65_536]?;
    prints(&rt, rt.alloc(), text.as_slice(), "(refused 17 (at 1))\n")?;
    text.push(b'(')?;
    prints(&rt, rt.alloc(), text.as_slice(), "(too long)\n")
}
