// The lines of a text, one by one.
ghost use Rattle.std.specs.Prelude.{◌≡◌, ℕ, List, [], ◌∷◌, ◌<◌, length, slice_index, MatchOption};
ghost use Rattle.std.specs.Iterator.{YieldsFirstRef, item_count};
ghost use Rattle.house.specs.Lines.{lines_of, Unended};

use std::marker::Model;

// Where the first line ends by byte 10.
fn line_end(text: &[u8]) -> Option<usize>
    ensures { MatchOption result (Unended text.now (length text.now)) (λ end. (end < length text.now) × Unended text.now end × (slice_index text.now end ≡ 10)) }
{
    text.iter().position(|b| *b == b'\n')
}

// The first line and what follows it, or none of an empty text.
#[tactic(auto, using(crate::proofs::LineEnds::first_line, crate::proofs::LineEnds::only_line, crate::proofs::LineEnds::none_of))]
fn split_line<'a>(text: &'a [u8]) -> Option<(&'a [u8], &'a [u8])>
    ensures { MatchOption result (lines_of text.now ≡ []) (λ p. (lines_of text.now ≡ p.0.now ∷ lines_of p.1.now) × (length p.1.now < length text.now)) }
{
    match line_end(text) {
        Some(end) => Some((&text[..end], &text[end + 1..])),
        None if text.is_empty() => None,
        None => Some((text, &[])),
    }
}

// The lines that are left of a text. Byte 10 ends a line and is no part of it.
#[derive(Drop)]
pub(crate) struct Lines<'a> {
    text: &'a [u8],
}

impl<'a> Model for Lines<'a> {
    ghost Value = { List (List ℕ) };

    ghost view = { λ left. lines_of left.text.now };
}

impl<'a> Lines<'a> {
    pub(crate) fn new(text: &'a [u8]) -> Lines<'a>
        ensures { result ≡ lines_of text.now }
    {
        Lines { text }
    }
}

impl<'a> Iterator for Lines<'a> {
    type Item = &'a [u8];

    ghost next_gives = { YieldsFirstRef (λ lines. lines) };

    ghost remaining = { item_count (λ lines. lines) };

    fn next(&mut self) -> Option<&'a [u8]> {
        let (line, rest) = split_line(self.text)?;
        self.text = rest;
        Some(line)
    }
}
