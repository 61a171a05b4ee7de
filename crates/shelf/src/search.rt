// The searches among places for grants, for every kind of amount.
ghost use Rattle.std.specs.Prelude.{◌≡◌, [], length, replicate, is_none, position};
ghost use Rattle.std.specs.List.{list_any};
ghost use Rattle.shelf.specs.Flat.{hit, is_other, grants_in, lowest_of};

use crate::records::Grant;
use amount::Amount;

// The first place that holds the grant of the bin and the batch.
pub(crate) fn position<A: Amount>(
    places: &[Option<Grant<A>>],
    bin: u32,
    batch: u32,
) -> Option<usize>
    ensures { result ≡ position (hit bin batch) places.now }
{
    places
        .iter()
        .position(|place| place.is_some_and(|grant| grant.is_of(bin, batch)))
}

// The first free place.
pub(crate) fn free_place<A: Amount>(places: &[Option<Grant<A>>]) -> Option<usize>
    ensures { result ≡ position is_none places.now }
{
    places.iter().position(|place| place.is_none())
}

// Frees every place.
pub(crate) fn clear<A: Amount>(places: &mut [Option<Grant<A>>])
    ensures free { places.new ≡ replicate (length places.old) None }
    ensures none { grants_in places.new ≡ [] }
{
    places.fill(None);
}

// Whether some place holds a grant of another batch in the bin.
pub(crate) fn another_in<A: Amount>(places: &[Option<Grant<A>>], bin: u32, batch: u32) -> bool
    ensures { result ≡ list_any (is_other bin batch) (grants_in places.now) }
{
    places
        .iter()
        .filter_map(|place| *place)
        .any(|grant| grant.bin == bin && grant.batch != batch)
}

// The lowest bin in which the batch holds a grant.
pub(crate) fn lowest_in<A: Amount>(places: &[Option<Grant<A>>], batch: u32) -> Option<u32>
    ensures { result ≡ lowest_of batch (grants_in places.now) }
{
    places
        .iter()
        .filter_map(|place| *place)
        .filter(|grant| grant.batch == batch)
        .map(|grant| grant.bin)
        .min()
}
