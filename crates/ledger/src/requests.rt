// What a ledger is asked, and what it says where it doesn't refuse.
use shelf::records::{Bin, NewBin};

// A call with what it needs.
#[derive(Clone, Copy, Debug, PartialEq, Eq)]
pub enum Request<A> {
    Lay(NewBin<A>),
    Report { bin: u32 },
}

#[derive(Clone, Copy, Debug, PartialEq, Eq)]
pub enum Said<A> {
    Laid(u32),
    Shown(Bin<A>),
}
