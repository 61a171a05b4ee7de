// The lines that a house takes: which calls they write, where an unreadable one fails, and how a call is written.
#![tactic(auto)]

pub mod calls;
mod cursor;
mod fault;
mod fields;
mod number;
mod pattern;
mod reader;
mod split;
mod table;
mod text;
mod writer;

pub use reader::{Reading, read};
pub use split::Words;
pub use writer::write;

// A line that is not legal: the length of its longest beginning that some legal line shares.
#[derive(Clone, Copy, Debug, PartialEq, Eq, PartialOrd, Ord)]
pub struct Unreadable {
    pub place: usize,
}
