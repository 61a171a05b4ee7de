// A shelf keeps bins and grants: what it means, and what each call makes of that.
#![tactic(auto)]

ghost use Rattle.std.specs.Prelude.{◌≡◌, ℕ, Bool, is_ok, length, Decides};
ghost use Rattle.amount.specs.Range.{meant};
ghost use Rattle.shelf.specs.Contents.{Contents, Sound, Another, Tells};
ghost use Rattle.shelf.specs.Contents.{bin_of, can_add, add_answer, after_add, can_set, set_answer, after_set};
ghost use Rattle.shelf.specs.Contents.{can_put, put_answer, after_put, amount_at, after_take};
ghost use Rattle.shelf.specs.Bins.{figures_in, new_figures};

use crate::error::ShelfError;
use crate::records::{Bin, NewBin, Range};
use amount::Amount;

pub mod error;
pub mod flat;
pub mod records;
mod search;

// Contents change only as an accepted change says, so a place that was freed can be used once more.
// A grant's bin and batch stay two arguments: a call names the bin and the batch is the one at work, so a pair would
// be made for each call only to be taken apart.
pub trait Shelf {
    type Kind: Amount;

    ghost contents: { Self → Contents };

    ghost sound: { (s : Self) → Sound (contents s) };

    // of a bin and a batch: is some other batch granted anything in the bin?
    ghost others: { Self → ℕ → ℕ → Bool };

    ghost decided: { (s : Self) (b k : ℕ) → Decides (others s b k) (Another (contents s) b k) };

    fn bin(&self, bin: u32) -> Option<Bin<Self::Kind>>
        ensures { figures_in Self.Kind.Amount.means result ≡ bin_of (contents self.now) bin };

    // Adds a bin at the end with INF, VAL and SUP at its start; BinsFull where every bin place is used.
    fn add_bin(&mut self, bin: NewBin<Self::Kind>) -> Result<(), ShelfError>
        ensures accepted { is_ok result ≡ can_add (contents self.old) }
        ensures answer { result ≡ add_answer (contents self.old) }
        ensures after { contents self.new ≡ after_add (contents self.old) (new_figures Self.Kind.Amount.means bin) };

    // Sets INF, VAL and SUP of a bin; NoSuchBin where there is none of the number.
    fn set_bin(&mut self, bin: u32, range: Range<Self::Kind>) -> Result<(), ShelfError>
        ensures accepted { is_ok result ≡ can_set (contents self.old) bin }
        ensures answer { result ≡ set_answer (contents self.old) bin }
        ensures after { contents self.new ≡ after_set (contents self.old) bin (Self.Kind.Amount.means range.inf) (Self.Kind.Amount.means range.val) (Self.Kind.Amount.means range.sup) };

    // Puts a grant; NoBinPlace past the bin capacity, AlreadyGranted where the batch holds one there, then GrantsFull.
    fn put(&mut self, bin: u32, batch: u32, amount: Self::Kind) -> Result<(), ShelfError>
        ensures accepted { is_ok result ≡ can_put (contents self.old) bin batch }
        ensures answer { result ≡ put_answer (contents self.old) bin batch }
        ensures after { contents self.new ≡ after_put (contents self.old) bin batch (Self.Kind.Amount.means amount) };

    fn find(&self, bin: u32, batch: u32) -> Option<Self::Kind>
        ensures { meant Self.Kind.Amount.means result ≡ amount_at (contents self.now) bin batch };

    // Takes a grant out and answers its amount, or none.
    fn take(&mut self, bin: u32, batch: u32) -> Option<Self::Kind>
        ensures answer { meant Self.Kind.Amount.means result ≡ amount_at (contents self.old) bin batch }
        ensures after { contents self.new ≡ after_take (contents self.old) bin batch };

    // The lowest bin in which the batch holds a grant.
    fn lowest_bin(&self, batch: u32) -> Option<u32>
        ensures { Tells (contents self.now).grants batch result };

    // Whether any batch but this one is granted something in the bin.
    fn another_holds(&self, bin: u32, batch: u32) -> bool
        ensures { result ≡ others self.now bin batch };

    fn bin_count(&self) -> usize
        ensures { result ≡ length (contents self.now).bins };

    fn grant_count(&self) -> usize
        ensures { result ≡ (contents self.now).held };

    fn bin_capacity(&self) -> usize
        ensures { result ≡ (contents self.now).bin_capacity };

    fn grant_capacity(&self) -> usize
        ensures { result ≡ (contents self.now).grant_capacity };
}
