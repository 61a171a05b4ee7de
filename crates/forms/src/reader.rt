// Calls read from lines.
ghost use Rattle.std.specs.Prelude.{◌≡◌, IfOk, Ok, Err, MatchResult};
ghost use Rattle.forms.specs.Calls.{Reads, Legal};
ghost use Rattle.forms.specs.Faults.{Fault};
ghost use Rattle.forms.specs.Holds.{Holds};
ghost use Rattle.forms.specs.Laws.{OneLine, OneCall, FaultPlace};
ghost use Rattle.forms.specs.Reading.{read_of};
ghost use Rattle.forms.specs.Words.{Runs};

use super::Unreadable;
use super::calls::{Call, Kind};
use super::split::Words;
use super::table::forms;

// A call, and the words of its line.
#[derive(Clone, Copy)]
pub struct Reading<'a> {
    pub call: Call,
    pub words: Words<'a>,
}

// The call that the line makes: the forms are tried in turn, and a fault stands where the one that gets furthest fails.
fn call_in(opened: Option<Kind>, line: &[u8]) -> Result<Call, Unreadable>
    ensures { MatchResult result (λ c. Reads opened line.now c) (λ e. Fault (Legal opened) line.now e.place) }
{
    let mut fault = Unreadable { place: 0 };
    for form in forms(opened) {
        match form.pattern().scan(line) {
            Ok(numbers) => return Ok(form.call(&numbers)),
            Err(e) => fault = fault.max(e),
        }
    }
    Err(fault)
}

// Reads a line. `opened` is the kind of the house, once it is open.
pub fn read<'a>(opened: Option<Kind>, line: &'a [u8]) -> Result<Reading<'a>, Unreadable>
    ensures value { MatchResult result (λ g. read_of opened line.now ≡ Ok g.call) (λ e. read_of opened line.now ≡ Err e.place) }
    ensures words { IfOk result (λ g. Holds g.words line.now) }
    ensures runs { Runs line.now }
    ensures line { OneLine opened }
    ensures call { OneCall opened }
    ensures place { FaultPlace opened }
{
    let call = call_in(opened, line)?;
    Ok(Reading {
        call,
        words: Words::new(line),
    })
}
