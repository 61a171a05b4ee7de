// The ledger's calls: wherever calls have led it, each answers and leaves what the reference ledger does.
ghost use Rattle.std.specs.Prelude.{◌≡◌, []};
ghost use Rattle.model.specs.Ledger.{opens, lay, report};
ghost use Rattle.model.specs.Runs.{Reached};
ghost use Rattle.ledger.specs.Meaning.{state};
ghost use Rattle.ledger.specs.Answers.{laid_by, shown_by};
ghost use Rattle.ledger.specs.Owed.{Owed};

use crate::{Ledger, checks};
use amount::Amount;
use refusal::Refusal;
use shelf::Shelf;
use shelf::records::{Bin, NewBin};

impl<S: Shelf> Ledger<S> {
    // Opens a ledger in a house; on an unfit shelf it refuses every call.
    pub fn open(house: u32, shelf: S) -> Ledger<S>
        ensures opened { state S.Kind.Amount.limit S.Shelf.contents result ≡ opens house S.Kind.Amount.limit (S.Shelf.contents shelf) }
        ensures reached { Reached (state S.Kind.Amount.limit S.Shelf.contents result) [] }
    {
        let fit = checks::is_fit(&shelf);
        Ledger {
            house,
            fit,
            last: 0,
            shelf,
        }
    }

    // Adds a bin with INF, VAL and SUP at its start, and answers its number.
    #[tactic(auto, using(crate::proofs::Lay::lay_owed))]
    pub fn lay(&mut self, bin: NewBin<S::Kind>) -> Result<u32, Refusal>
        ensures { Owed (state S.Kind.Amount.limit S.Shelf.contents self.old) (lay (S.Kind.Amount.means bin.min) (S.Kind.Amount.means bin.max) (S.Kind.Amount.means bin.start)) (laid_by result) (state S.Kind.Amount.limit S.Shelf.contents self.new) }
    {
        self.work_lay(bin)
    }

    // The five amounts of a bin.
    #[tactic(auto, using(crate::proofs::Lay::report_owed, crate::proofs::Lay::report_refused, crate::proofs::Lay::shown_by_lem))]
    pub fn report(&self, bin: u32) -> Result<Bin<S::Kind>, Refusal>
        ensures { Owed (state S.Kind.Amount.limit S.Shelf.contents self.now) (report bin) (shown_by S.Kind.Amount.means result) (state S.Kind.Amount.limit S.Shelf.contents self.now) }
    {
        if !self.fit {
            return Err(Refusal::UnfitShelf);
        }
        self.shelf.bin(bin).ok_or(Refusal::NoSuchBin)
    }
}
