// A fault in a line: its text, and the refusal that it becomes.
ghost use Rattle.std.specs.Prelude.{◌≡◌, Some};
ghost use Rattle.refusal.specs.declared.Refusal.TheVariants as refusal;
ghost use Rattle.forms.specs.Text.{fault_text};

use super::Unreadable;
use refusal::Refusal;
use std::error::Error;
use std::fmt;

impl fmt::Display for Unreadable {
    ghost output = { λ fault. Some (fault_text fault) };

    fn fmt<W: fmt::Write>(&self, f: &mut fmt::Formatter<W>) -> fmt::Result {
        write!(f, "unreadable at {}", self.place)
    }
}

impl Error for Unreadable {}

impl From<Unreadable> for Refusal {
    ghost from_gives = { λ fault why. why ≡ refusal.Unreadable fault.place };

    fn from(fault: Unreadable) -> Refusal {
        Refusal::Unreadable { place: fault.place }
    }
}
