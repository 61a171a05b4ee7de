// Amounts as they are written.
ghost use Rattle.std.specs.Prelude.{Some};
ghost use Rattle.forms.specs.Text.{figures_text};

use super::calls::Figures;
use std::fmt;

impl fmt::Display for Figures {
    ghost output = { λ x. Some (figures_text x) };

    fn fmt<W: fmt::Write>(&self, f: &mut fmt::Formatter<W>) -> fmt::Result {
        match self {
            Figures::Grams(grams) => write!(f, "(g {grams})"),
            Figures::Trays { trays, loose } => write!(f, "(tl {trays} {loose})"),
        }
    }
}
