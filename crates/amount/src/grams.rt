// Whole grams: they mean themselves.
ghost use Rattle.std.specs.Prelude.{◌≡◌, pos};
ghost use Rattle.amount.specs.Limits.{gram_limit};
ghost use Rattle.amount.specs.Range.{made};
ghost use Rattle.std.proofs.Common.{rules};

use crate::Counted;
use crate::bounds::if_within;
use refusal::Refusal;

#[derive(Clone, Copy, Debug, PartialEq, Eq, Hash)]
pub struct Grams {
    grams: i64,
}

impl Grams {
    ghost use Rattle.amount.specs.Grams.{grams, grams_made};

    // An amount from an outside number, refused over the limit.
    pub fn new(number: i64) -> Result<Grams, Refusal>
        ensures { made grams result ≡ grams_made number }
    {
        let grams = if_within(number, Grams::LIMIT).ok_or(Refusal::OverLimit)?;
        Ok(Grams { grams })
    }
}

// By hand, so that it says what it makes.
impl Default for Grams {
    ghost is_default = { λ x. x.grams ≡ pos 0 };

    fn default() -> Grams {
        Grams { grams: 0 }
    }
}

impl Counted for Grams {
    ghost use Rattle.amount.specs.Grams.{grams};

    ghost means = { grams };

    ghost LIMIT = { gram_limit };

    ghost limited = { Prim.search rules };

    ghost small = { Prim.search rules };

    ghost bounded = { Prim.search rules };

    const LIMIT: u64 = 1_000_000_000_000;

    // A figure outside -2L to 2L means zero.
    fn number(self) -> i64 {
        if_within(self.grams, 2 * Grams::LIMIT).unwrap_or(0)
    }

    fn of_number(n: i64) -> Option<Grams> {
        let grams = if_within(n, 2 * Grams::LIMIT)?;
        Some(Grams { grams })
    }
}
