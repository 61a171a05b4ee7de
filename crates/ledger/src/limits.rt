// The stated limits, each in one place.

// The places of a fit shelf.
pub(crate) const LEAST_BINS: usize = 1;

pub(crate) const MOST_BINS: usize = 512;

pub(crate) const LEAST_GRANTS: usize = 16;

pub(crate) const MOST_GRANTS: usize = 2048;
