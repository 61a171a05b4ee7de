// Why a shelf takes no bin, no range and no grant.
ghost use Rattle.std.specs.Prelude.{Some};
ghost use Rattle.shelf.specs.Errors.{error_text};

use std::error::Error;
use std::fmt;

// What is wrong with a change; a refused change leaves the shelf as it was.
#[derive(Clone, Copy, Debug, PartialEq, Eq)]
pub enum ShelfError {
    BinsFull,
    NoSuchBin,
    NoBinPlace,
    AlreadyGranted,
    GrantsFull,
}

impl fmt::Display for ShelfError {
    ghost output = { λ e. Some (error_text e) };

    fn fmt<W: fmt::Write>(&self, f: &mut fmt::Formatter<W>) -> fmt::Result {
        let text = match self {
            ShelfError::BinsFull => "every bin place is used",
            ShelfError::NoSuchBin => "there is no such bin",
            ShelfError::NoBinPlace => "no bin place has this number",
            ShelfError::AlreadyGranted => "the batch holds a grant in the bin",
            ShelfError::GrantsFull => "every grant place is used",
        };
        f.write_str(text)
    }
}

impl Error for ShelfError {}
