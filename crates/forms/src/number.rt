// Numbers read from a line: decimal, with no leading zero and no minus before 0.
ghost use Rattle.std.specs.Prelude.{◌≡◌, ◌+◌, ◌-◌, ◌*◌, ◌<◌, ◌≤◌, ◌↔◌, ◌∷◌, length, drop, IsTrue, MatchOption};
ghost use Rattle.forms.specs.Numbers.{Limit, Goes, Counted};
ghost use Rattle.forms.specs.Patterns.{Suits};

// The numbers that may stand at a place: those of a size up to `limit`, and with `minus` those below 0 too.
#[derive(Clone, Copy)]
pub(crate) struct Bounds {
    pub(crate) limit: u64,
    pub(crate) minus: bool,
    ghost limited: { Limit limit },
}

impl Bounds {
    // Whether `z` is one of them.
    pub(crate) fn suits(self, z: i64) -> bool
        ensures { IsTrue result ↔ Suits self.limit self.minus z }
    {
        (self.minus || z >= 0) && z.unsigned_abs() <= self.limit
    }

    // The number that the digits of `v` and the digit `b` write, unless that is no number up to the limit.
    fn extended(self, v: u64, b: u8) -> Option<u64>
        requires { v ≤ self.limit }
        ensures { MatchOption result (Goes self.limit v b → ⊥) (λ w. Goes self.limit v b × (w ≡ 10 * v + (b - 48))) }
    {
        if v == 0 || !b.is_ascii_digit() {
            return None;
        }
        let w = 10 * v + u64::from(b - b'0');
        (w <= self.limit).then_some(w)
    }

    // The number that the digit `digit` and the front of `rest` write, and how many bytes of `rest` it takes.
    pub(crate) fn digits(self, digit: u8, rest: &[u8]) -> (u64, usize)
        requires { (48 ≤ digit) × (digit < 58) }
        ensures within { result.1 ≤ length rest.now }
        ensures number { Counted self.limit digit (digit ∷ rest.now) result.0 (drop result.1 rest.now) }
    {
        let mut value = u64::from(digit - b'0');
        for (len, b) in rest.iter().enumerate() {
            let Some(more) = self.extended(value, *b) else {
                return (value, len);
            };
            value = more;
        }
        (value, rest.len())
    }
}
