// The flat shelf: bins and grants in lists of the caller's.
ghost use Rattle.std.specs.Prelude.{◌≡◌, ◌≤◌, true, length};
ghost use Rattle.shelf.specs.Flat.{grants_in, apart, placed_in};

use crate::records::{Bin, Grant};

pub mod methods;

// Memory lent by the caller, with no heap: a list keeps its length, so the number of used places stands beside it.
// `grants_used` is the count that a shelf's meaning has beside its grants.
#[derive(Drop)]
pub struct FlatShelf<'a, A> {
    bins: &'a mut [Bin<A>],
    bins_used: usize,
    grants: &'a mut [Option<Grant<A>>],
    grants_used: usize,
    ghost fits: { bins_used ≤ length bins.now },
    ghost counted: { length (grants_in grants.now) ≡ grants_used },
    ghost distinct: { apart (grants_in grants.now) ≡ true },
    ghost placed: { placed_in (length bins.now) (grants_in grants.now) ≡ true },
}
