// Whole numbers within bounds.
ghost use Rattle.std.specs.Prelude.{◌≡◌, true, IfSome};
ghost use Rattle.amount.specs.Range.{inside, if_inside};

// Whether z lies from -n to n.
pub(crate) fn lies_within(z: i64, n: u64) -> bool
    ensures { result ≡ inside n z }
{
    // By two comparisons, from which the compiler knows where z lies. Every z lies within an n past 63 bits.
    match i64::try_from(n) {
        Ok(n) => -n <= z && z <= n,
        Err(_) => true,
    }
}

// The number z where it lies from -n to n.
pub(crate) fn if_within(z: i64, n: u64) -> Option<i64>
    ensures value { result ≡ if_inside n z }
    ensures range { IfSome result (λ w. inside n w ≡ true) }
{
    lies_within(z, n).then_some(z)
}
