// Why a call is refused: one table for every layer.
#![tactic(auto)]

ghost use Rattle.std.specs.Prelude.{◌≡◌, Some};
ghost use Rattle.refusal.specs.Table.{number_of, refusal_text};

use std::fmt;

// A refusal, named by what is wrong; a refused call changes nothing.
#[derive(Clone, Copy, Debug, PartialEq, Eq, Hash)]
pub enum Refusal {
    UnfitShelf,
    BadFigures,
    OverLimit,
    Trading,
    BinsFull,
    BatchActive,
    OldNumber,
    QueueFull,
    StrangeToken,
    NoSuchBin,
    NothingAsked,
    AskedAlready,
    BatchFull,
    NotItsTurn,
    UnknownBatch,
    UnevenTray,
    Unreadable { place: usize },
}

impl Refusal {
    // The number that the outside world knows the refusal by. `u32::from` would not say which number.
    pub fn number(self) -> u32
        ensures { result ≡ number_of self }
    {
        match self {
            Refusal::UnfitShelf => 1,
            Refusal::BadFigures => 2,
            Refusal::OverLimit => 3,
            Refusal::Trading => 4,
            Refusal::BinsFull => 5,
            Refusal::BatchActive => 6,
            Refusal::OldNumber => 7,
            Refusal::QueueFull => 8,
            Refusal::StrangeToken => 9,
            Refusal::NoSuchBin => 10,
            Refusal::NothingAsked => 11,
            Refusal::AskedAlready => 12,
            Refusal::BatchFull => 13,
            Refusal::NotItsTurn => 14,
            Refusal::UnknownBatch => 15,
            Refusal::UnevenTray => 16,
            Refusal::Unreadable { place: _ } => 17,
        }
    }
}

// As it is answered; an unreadable line with the place where it fails.
impl fmt::Display for Refusal {
    ghost output = { λ x. Some (refusal_text x) };

    fn fmt<W: fmt::Write>(&self, f: &mut fmt::Formatter<W>) -> fmt::Result {
        let number = self.number();
        match self {
            Refusal::Unreadable { place } => write!(f, "(refused {number} (at {place}))"),
            _ => write!(f, "(refused {number})"),
        }
    }
}

impl std::error::Error for Refusal {}
