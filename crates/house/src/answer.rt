// What the runner answers to a call that isn't refused.
use forms::calls::Figures;
use shelf::records::Bin;

#[derive(Clone, Copy, Debug, PartialEq, Eq)]
pub enum Answer {
    Opened(u32),
    Laid(u32),
    Bin { bin: u32, figures: Bin<Figures> },
}
