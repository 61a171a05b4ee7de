// The flat shelf as a shelf.
ghost use Rattle.std.specs.Prelude.{◌≡◌, is_ok, length};
ghost use Rattle.shelf.specs.Contents.{empty_contents, can_add, add_answer, after_add, can_set, set_answer, after_set};
ghost use Rattle.shelf.specs.Bins.{new_figures};
ghost use Rattle.shelf.specs.Soundness.{flat_sound};
ghost use Rattle.shelf.specs.Others.{flat_others, flat_others_decided};
ghost use Rattle.shelf.specs.FlatMeaning.{flat_meaning};

use super::FlatShelf;
use crate::Shelf;
use crate::error::ShelfError;
use crate::records::{Bin, Grant, NewBin, Range};
use crate::search::{another_in, clear, free_place, lowest_in, position};
use amount::Amount;

impl<'a, A: Amount> FlatShelf<'a, A> {
    // An empty shelf over the caller's lists.
    pub fn new(bins: &'a mut [Bin<A>], grants: &'a mut [Option<Grant<A>>]) -> FlatShelf<'a, A>
        ensures { flat_meaning A.Amount.means result ≡ empty_contents (length bins.old) (length grants.old) }
    {
        clear(grants);
        FlatShelf {
            bins,
            bins_used: 0,
            grants,
            grants_used: 0,
        }
    }
}

// Two methods repeat their clauses: the check cannot take them from the trait where a generic struct comes by value.
// Places are found by `as usize`, since no `From` leads from `u32` to `usize`.
impl<'a, A: Amount> Shelf for FlatShelf<'a, A> {
    type Kind = A;

    ghost contents = { flat_meaning A.Amount.means };

    ghost others = { flat_others };

    ghost decided = { flat_others_decided A.Amount.means };

    ghost sound = { flat_sound A.Amount.means };

    #[tactic(auto, using(crate::proofs::Bins::bin_read), unfolding(crate::specs::Contents::bin_of))]
    fn bin(&self, bin: u32) -> Option<Bin<A>> {
        self.bins[..self.bins_used].get(bin as usize).copied()
    }

    #[tactic(auto, using(crate::proofs::Bins::bin_added), unfolding(crate::specs::Contents::can_add, crate::specs::Contents::add_answer, crate::specs::Contents::after_add))]
    fn add_bin(&mut self, bin: NewBin<A>) -> Result<(), ShelfError>
        ensures accepted { is_ok result ≡ can_add (flat_meaning A.Amount.means self.old) }
        ensures answer { result ≡ add_answer (flat_meaning A.Amount.means self.old) }
        ensures after { flat_meaning A.Amount.means self.new ≡ after_add (flat_meaning A.Amount.means self.old) (new_figures A.Amount.means bin) }
    {
        if self.bins_used >= self.bins.len() {
            return Err(ShelfError::BinsFull);
        }
        self.bins[self.bins_used] = Bin::laid(bin);
        self.bins_used += 1;
        Ok(())
    }

    #[tactic(auto, using(crate::proofs::Bins::bin_set), unfolding(crate::specs::Contents::bin_of, crate::specs::Contents::can_set, crate::specs::Contents::set_answer, crate::specs::Contents::after_set))]
    fn set_bin(&mut self, bin: u32, range: Range<A>) -> Result<(), ShelfError>
        ensures accepted { is_ok result ≡ can_set (flat_meaning A.Amount.means self.old) bin }
        ensures answer { result ≡ set_answer (flat_meaning A.Amount.means self.old) bin }
        ensures after { flat_meaning A.Amount.means self.new ≡ after_set (flat_meaning A.Amount.means self.old) bin (A.Amount.means range.inf) (A.Amount.means range.val) (A.Amount.means range.sup) }
    {
        let old = self.bin(bin).ok_or(ShelfError::NoSuchBin)?;
        self.bins[bin as usize] = old.with_range(range);
        Ok(())
    }

    #[tactic(auto, using(crate::proofs::Places::grant_put), unfolding(crate::specs::Contents::can_put, crate::specs::Contents::put_answer, crate::specs::Contents::after_put))]
    fn put(&mut self, bin: u32, batch: u32, amount: A) -> Result<(), ShelfError> {
        if bin as usize >= self.bins.len() {
            return Err(ShelfError::NoBinPlace);
        }
        let places = &mut *self.grants;
        if position(places, bin, batch).is_some() {
            return Err(ShelfError::AlreadyGranted);
        }
        let place = free_place(places).ok_or(ShelfError::GrantsFull)?;
        places[place] = Some(Grant { bin, batch, amount });
        self.grants_used += 1;
        Ok(())
    }

    #[tactic(auto, using(crate::proofs::Places::not_found), unfolding(crate::specs::Contents::amount_at))]
    fn find(&self, bin: u32, batch: u32) -> Option<A> {
        let place = position(self.grants, bin, batch)?;
        self.grants[place].map(|grant| grant.amount)
    }

    #[tactic(auto, using(crate::proofs::Places::grant_taken), unfolding(crate::specs::Contents::amount_at, crate::specs::Contents::after_take))]
    fn take(&mut self, bin: u32, batch: u32) -> Option<A> {
        let places = &mut *self.grants;
        let place = position(places, bin, batch)?;
        let grant = places[place]?;
        places[place] = None;
        self.grants_used -= 1;
        Some(grant.amount)
    }

    fn lowest_bin(&self, batch: u32) -> Option<u32> {
        lowest_in(self.grants, batch)
    }

    fn another_holds(&self, bin: u32, batch: u32) -> bool {
        another_in(self.grants, bin, batch)
    }

    #[tactic(auto, using(crate::proofs::Bins::bins_used))]
    fn bin_count(&self) -> usize {
        self.bins_used
    }

    fn grant_count(&self) -> usize {
        self.grants_used
    }

    fn bin_capacity(&self) -> usize {
        self.bins.len()
    }

    fn grant_capacity(&self) -> usize {
        self.grants.len()
    }
}
