// What each call does to every ledger, whatever led to it.
ghost use Rattle.std.specs.Prelude.{◌≡◌};
ghost use Rattle.ledger.specs.Meaning.{state};
ghost use Rattle.ledger.specs.Working.{lay_of};

use crate::{Ledger, checks, limits};
use amount::Amount;
use refusal::Refusal;
use shelf::Shelf;
use shelf::records::NewBin;

impl<S: Shelf> Ledger<S> {
    #[tactic(auto, unfolding(shelf::specs::Contents::can_add, shelf::specs::Contents::after_add, shelf::specs::Contents::add_answer))]
    pub(crate) fn work_lay(&mut self, bin: NewBin<S::Kind>) -> Result<u32, Refusal>
        ensures { (result, state S.Kind.Amount.limit S.Shelf.contents self.new) ≡ lay_of (state S.Kind.Amount.limit S.Shelf.contents self.old) (S.Kind.Amount.means bin.min) (S.Kind.Amount.means bin.max) (S.Kind.Amount.means bin.start) }
    {
        if !self.fit {
            return Err(Refusal::UnfitShelf);
        }
        if checks::is_bad(bin) {
            return Err(Refusal::BadFigures);
        }
        if checks::is_over(bin.min) || checks::is_over(bin.max) || checks::is_over(bin.start) {
            return Err(Refusal::OverLimit);
        }
        if self.last > 0 {
            return Err(Refusal::Trading);
        }
        let number = self.shelf.bin_count();
        if number >= limits::MOST_BINS {
            return Err(Refusal::BinsFull);
        }
        // A full shelf is the one error that `add_bin` has. The cast is proved to lose nothing.
        self.shelf.add_bin(bin).map_err(|_| Refusal::BinsFull)?;
        Ok(number as u32)
    }
}
