// A line, and how far it has been read. Each clause `line` says that the cursor stays on its line: a cursor that
// goes by value would have to come back with every error.
ghost use Rattle.std.specs.Prelude.{◌≡◌, ◌+◌, ◌<◌, ◌≤◌, length, drop, MatchResult};
ghost use Rattle.forms.specs.Numbers.{Stands, Differs, Found, Missing, Counted, NoDigit};

use super::Unreadable;
use super::number::Bounds;

#[derive(Drop)]
pub(crate) struct Cursor<'a> {
    line: &'a [u8],
    at: usize,
    ghost within: { at ≤ length line.now },
}

impl<'a> Cursor<'a> {
    pub(crate) fn new(line: &'a [u8]) -> Cursor<'a>
        ensures { (result.line.now ≡ line.now) × (result.at ≡ 0) }
    {
        Cursor { line, at: 0 }
    }

    // The line's next byte is `b`.
    pub(crate) fn text(&mut self, b: u8) -> Result<(), Unreadable>
        ensures line { self.new.line.now ≡ self.old.line.now }
        ensures next { MatchResult result
            (λ _. Stands self.old.line.now self.old.at b × (self.new.at ≡ self.old.at + 1))
            (λ e. (e.place ≡ self.old.at) × Differs self.old.line.now self.old.at b × (self.new.at ≡ self.old.at)) }
    {
        if self.line.get(self.at) != Some(&b) {
            return Err(Unreadable { place: self.at });
        }
        self.at += 1;
        Ok(())
    }

    // The line goes on with digits, of which the first is `least` or more.
    fn digits(&mut self, least: u8, bounds: Bounds) -> Result<u64, Unreadable>
        requires { 48 ≤ least }
        ensures line { self.new.line.now ≡ self.old.line.now }
        ensures next { MatchResult result
            (λ n. Counted bounds.limit least (drop self.old.at self.old.line.now) n (drop self.new.at self.old.line.now))
            (λ e. (e.place ≡ self.old.at) × NoDigit least (drop self.old.at self.old.line.now)) }
    {
        match self.line[self.at..].split_first() {
            Some((digit, rest)) if (least..=b'9').contains(digit) => {
                let (size, len) = bounds.digits(*digit, rest);
                self.at += 1 + len;
                Ok(size)
            }
            _ => Err(Unreadable { place: self.at }),
        }
    }

    // The line goes on with a number. An arm for each sign: joined, the first digit and the value would both ask for
    // the sign again. The casts are proved to lose nothing.
    pub(crate) fn number(&mut self, bounds: Bounds) -> Result<i64, Unreadable>
        ensures line { self.new.line.now ≡ self.old.line.now }
        ensures next { MatchResult result
            (λ z. Found bounds.limit bounds.minus self.old.line.now self.old.at self.new.at z)
            (λ e. Missing bounds.limit bounds.minus self.old.line.now self.old.at e.place) }
    {
        if bounds.minus && self.text(b'-').is_ok() {
            let size = self.digits(b'1', bounds)?;
            Ok(-(size as i64))
        } else {
            let size = self.digits(b'0', bounds)?;
            Ok(size as i64)
        }
    }

    // Nothing is left of the line.
    pub(crate) fn end(&self) -> Result<(), Unreadable>
        ensures { MatchResult result
            (λ _. length self.now.line.now ≤ self.now.at)
            (λ e. (e.place ≡ self.now.at) × (self.now.at < length self.now.line.now)) }
    {
        if self.at < self.line.len() {
            Err(Unreadable { place: self.at })
        } else {
            Ok(())
        }
    }
}
