// The runner: it serves a house line by line, and a whole run is one function.
#![tactic(auto)]

mod answer;
mod kind;
mod lines;
mod opening;
mod program;
mod serving;
mod text;

pub use program::{MOST_BYTES, run};
