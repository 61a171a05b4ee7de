// A line split into its words.
ghost use Rattle.std.specs.Prelude.{◌≡◌, ◌≤◌, length, slice_get, ◌==◌};
ghost use Rattle.std.specs.Option.{option_map};
ghost use Rattle.forms.specs.Words.{most_words, parting, spans};

// A legal line has no more words.
const MOST_WORDS: usize = 13;

// The words of a line, in order, each that very part of it.
#[derive(Clone, Copy)]
pub struct Words<'a> {
    parts: [&'a [u8]; MOST_WORDS],
    len: usize,
}

// Whether the byte parts two words.
fn is_parting(b: u8) -> bool
    ensures { result ≡ parting b }
{
    matches!(b, b' ' | b'(' | b')')
}

impl<'a> Words<'a> {
    ghost use Rattle.forms.specs.Holds.{texts, Holds};

    // Walks the line once, so that `len` and `get` take constant time.
    pub(crate) fn new(line: &'a [u8]) -> Words<'a>
        requires { length (spans line.now) ≤ most_words }
        ensures { Holds result line.now }
    {
        let mut words = Words {
            parts: [b""; MOST_WORDS],
            len: 0,
        };
        for word in line
            .split(|b| is_parting(*b))
            .filter(|word| !word.is_empty())
        {
            words.parts[words.len] = word;
            words.len += 1;
        }
        words
    }

    // How many words there are.
    pub fn len(&self) -> usize
        ensures count { result ≡ length (texts self.now) }
        ensures few { result ≤ most_words }
    {
        self.len.min(MOST_WORDS)
    }

    pub fn is_empty(&self) -> bool
        ensures { result ≡ (length (texts self.now) == 0) }
    {
        self.len() == 0
    }

    // The word at `i`, from 0.
    pub fn get(&self, i: usize) -> Option<&'a [u8]>
        ensures { option_map (λ word. word.now) result ≡ slice_get (texts self.now) i }
    {
        if i < self.len() {
            Some(self.parts[i])
        } else {
            None
        }
    }
}
