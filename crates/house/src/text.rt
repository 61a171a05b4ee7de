// Answers as they are printed.
ghost use Rattle.std.specs.Prelude.{Some};
ghost use Rattle.house.specs.Text.{answer_text};

use crate::answer::Answer;
use shelf::records::Bin;
use std::fmt;

impl fmt::Display for Answer {
    ghost output = { λ x. Some (answer_text x) };

    fn fmt<W: fmt::Write>(&self, f: &mut fmt::Formatter<W>) -> fmt::Result {
        match self {
            Answer::Opened(house) => write!(f, "(opened {house})"),
            Answer::Laid(bin) => write!(f, "(laid {bin})"),
            Answer::Bin { bin, figures } => {
                let Bin {
                    min,
                    max,
                    inf,
                    val,
                    sup,
                } = figures;
                write!(
                    f,
                    "(bin {bin} (min {min}) (max {max}) (inf {inf}) (val {val}) (sup {sup}))"
                )
            }
        }
    }
}
