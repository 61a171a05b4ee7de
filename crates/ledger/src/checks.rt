// The tests that refuse a call.
ghost use Rattle.std.specs.Prelude.{◌≡◌, ◌&&◌, ◌==◌, length};
ghost use Rattle.model.specs.Ledger.{fit_capacities, fit_shelf};
ghost use Rattle.ledger.specs.Working.{bad_figures, over_limit};

use crate::limits;
use amount::Amount;
use shelf::Shelf;
use shelf::records::NewBin;

// Whether a shelf with these capacities is within the limits.
#[tactic(auto, unfolding(model::specs::Ledger::fit_capacities))]
pub fn fits(bins: usize, grants: usize) -> bool
    ensures { result ≡ fit_capacities bins grants }
{
    (limits::LEAST_BINS..=limits::MOST_BINS).contains(&bins)
        && (limits::LEAST_GRANTS..=limits::MOST_GRANTS).contains(&grants)
}

// Whether the shelf holds nothing.
fn is_empty<S: Shelf>(shelf: &S) -> bool
    ensures { result ≡ (length (S.Shelf.contents shelf.now).bins == 0 && (S.Shelf.contents shelf.now).held == 0) }
{
    shelf.bin_count() == 0 && shelf.grant_count() == 0
}

// Whether a ledger can work on the shelf: its capacities lie within the limits, and it holds nothing.
#[tactic(auto, unfolding(model::specs::Ledger::fit_shelf))]
pub(crate) fn is_fit<S: Shelf>(shelf: &S) -> bool
    ensures { result ≡ fit_shelf (S.Shelf.contents shelf.now) }
{
    fits(shelf.bin_capacity(), shelf.grant_capacity()) && is_empty(shelf)
}

// Whether the floor lies above the ceiling, or the start outside them.
#[tactic(auto, unfolding(crate::specs::Working::bad_figures))]
pub(crate) fn is_bad<A: Amount>(bin: NewBin<A>) -> bool
    ensures { result ≡ bad_figures (A.Amount.means bin.min) (A.Amount.means bin.max) (A.Amount.means bin.start) }
{
    bin.max.less_than(bin.min) || bin.start.less_than(bin.min) || bin.max.less_than(bin.start)
}

// Whether the amount lies outside -L to L.
#[tactic(auto, using(crate::proofs::Tests::over_is))]
pub(crate) fn is_over<A: Amount>(amount: A) -> bool
    ensures { result ≡ over_limit A.Amount.limit (A.Amount.means amount) }
{
    !amount.within_limit()
}
