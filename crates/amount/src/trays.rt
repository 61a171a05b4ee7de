// Full trays and loose pieces: they mean their pieces.
ghost use Rattle.std.specs.Prelude.{◌≡◌, ◌*◌, true, pos};
ghost use Rattle.amount.specs.Limits.{tray_limit};
ghost use Rattle.amount.specs.Range.{inside, made};
ghost use Rattle.std.proofs.Common.{rules};

use crate::Counted;
use crate::bounds::{if_within, lies_within};
use refusal::Refusal;

// The pieces of a full tray.
const TRAY: i64 = 24;

// The most loose pieces beside full trays.
const LOOSE: u32 = 23;

#[derive(Clone, Copy, Debug, PartialEq, Eq, Hash)]
pub struct Trays {
    trays: i32,
    loose: u8,
}

impl Trays {
    ghost use Rattle.amount.specs.Trays.{pieces, full_trays, loose_pieces, trays_made};

    // An amount from outside numbers: first the limit is checked, then that 0 to 23 pieces are loose.
    pub fn new(trays: i64, loose: u32) -> Result<Trays, Refusal>
        ensures { made pieces result ≡ trays_made trays loose }
    {
        // A number of pieces past 64 bits ends beyond the limit too.
        let pieces = trays.saturating_mul(TRAY).saturating_add(i64::from(loose));
        if !lies_within(pieces, Trays::LIMIT) {
            return Err(Refusal::OverLimit);
        }
        if loose > LOOSE {
            return Err(Refusal::UnevenTray);
        }
        // Both casts are proved to lose nothing.
        Ok(Trays {
            trays: trays as i32,
            loose: loose as u8,
        })
    }

    // The full trays and the loose pieces that are meant, divided downwards so that loose is never negative.
    pub fn split(self) -> (i64, u32)
        ensures full { result.0 ≡ full_trays (pieces self) }
        ensures loose { result.1 ≡ loose_pieces (pieces self) }
    {
        let n = self.number();
        (n.div_euclid(TRAY), n.rem_euclid(TRAY) as u32)
    }

    // The trays that mean n. Both casts are proved to lose nothing; `try_from` would only add errors that cannot come.
    fn of_pieces(n: i64) -> Trays
        requires { inside (2 * tray_limit) n ≡ true }
        ensures { pieces result ≡ n }
    {
        Trays {
            trays: n.div_euclid(TRAY) as i32,
            loose: n.rem_euclid(TRAY) as u8,
        }
    }
}

// By hand, so that it says what it makes.
impl Default for Trays {
    ghost is_default = { λ x. (x.trays ≡ pos 0) × (x.loose ≡ 0) };

    fn default() -> Trays {
        Trays { trays: 0, loose: 0 }
    }
}

impl Counted for Trays {
    ghost use Rattle.amount.specs.Trays.{pieces};

    ghost means = { pieces };

    ghost LIMIT = { tray_limit };

    ghost limited = { Prim.search rules };

    ghost small = { Prim.search rules };

    ghost bounded = { Prim.search rules };

    const LIMIT: u64 = 24_000_000;

    // Figures that stand for no amount mean zero.
    fn number(self) -> i64 {
        let n = i64::from(self.trays) * TRAY + i64::from(self.loose);
        if u32::from(self.loose) <= LOOSE && lies_within(n, 2 * Trays::LIMIT) {
            n
        } else {
            0
        }
    }

    fn of_number(n: i64) -> Option<Trays> {
        let pieces = if_within(n, 2 * Trays::LIMIT)?;
        Some(Trays::of_pieces(pieces))
    }
}
