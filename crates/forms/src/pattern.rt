// Patterns: text in which `#` stands for a count and `%` for an amount. A line of it has numbers in their place.
ghost use Rattle.std.specs.Prelude.{◌≡◌, ◌≤◌, ◌++◌, length, MatchOption, MatchResult};
ghost use Rattle.forms.specs.Faults.{Fault};
ghost use Rattle.forms.specs.Patterns.{piece_of, text, number, pieces, Sound, Sound-prop, field_count, most_fields, longest_pattern, Fits, fill, Lines};

use super::Unreadable;
use super::cursor::Cursor;
use super::fields::Fields;
use super::number::Bounds;
use arrayvec::ArrayVec;
use itoa::Buffer;

// Numbers of up to 32 bits. By `as`, since a constant can't be made by `u64::from`.
const COUNT: Bounds = Bounds {
    limit: u32::MAX as u64,
    minus: false,
};

// Numbers of up to 18 digits.
const AMOUNT: Bounds = Bounds {
    limit: 999_999_999_999_999_999,
    minus: true,
};

// A bound on every line: the 64 bytes of the longest pattern, and 18 more for each of 6 numbers.
const LONGEST_LINE: usize = 172;

// A pattern whose lines can be read, since no number of it runs into another or into a digit.
#[derive(Clone, Copy)]
pub(crate) struct Pattern {
    pub(crate) bytes: &'static [u8],
    ghost sound: { Sound (pieces bytes.now) } by { Sound-prop (pieces bytes.now) },
    ghost few: { field_count (pieces bytes.now) ≤ most_fields },
    ghost short: { length bytes.now ≤ longest_pattern },
}

// The bounds of the number that a byte stands for, unless it is text.
fn field(b: u8) -> Option<Bounds>
    ensures { MatchOption result (piece_of b ≡ text b) (λ bounds. piece_of b ≡ number bounds.limit bounds.minus) }
{
    match b {
        b'#' => Some(COUNT),
        b'%' => Some(AMOUNT),
        _ => None,
    }
}

impl Pattern {
    // The numbers of the line.
    pub(crate) fn scan(self, line: &[u8]) -> Result<Fields, Unreadable>
        ensures { MatchResult result
            (λ f. Fits (pieces self.bytes.now) f.items × (line.now ≡ fill (pieces self.bytes.now) f.items))
            (λ e. Fault (Lines (pieces self.bytes.now)) line.now e.place) }
    {
        let mut cursor = Cursor::new(line);
        let mut found = ArrayVec::new();
        for b in self.bytes {
            match field(*b) {
                Some(bounds) => found.push(cursor.number(bounds)?),
                None => cursor.text(*b)?,
            }
        }
        cursor.end()?;
        Ok(found)
    }

    // The line with these numbers, if they are such as the pattern takes. An iterator over the numbers was tried:
    // the check's search stops at it, so they are split off one by one.
    pub(crate) fn line(self, numbers: &[i64]) -> Option<ArrayVec<u8, LONGEST_LINE>>
        ensures { MatchOption result
            (Fits (pieces self.bytes.now) numbers.now → ⊥)
            (λ l. Fits (pieces self.bytes.now) numbers.now × (l.items ≡ fill (pieces self.bytes.now) numbers.now)) }
    {
        let mut line = ArrayVec::new();
        let mut buffer = Buffer::new();
        let mut left = numbers;
        for b in self.bytes {
            match field(*b) {
                Some(bounds) => {
                    let (z, rest) = left.split_first()?;
                    if !bounds.suits(*z) {
                        return None;
                    }
                    line.try_extend_from_slice(buffer.format(*z).as_bytes())
                        .unwrap();
                    left = rest;
                }
                None => line.push(*b),
            }
        }
        left.is_empty().then_some(line)
    }
}
