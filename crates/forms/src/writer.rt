// Calls written to a buffer. What can't be written is refused at place 0, as the written forms have it: it has no line
// in which a place could be told.
ghost use Rattle.std.specs.Prelude.{◌≡◌, ◌<◌, length, MatchResult};
ghost use Rattle.forms.specs.Calls.{written, Allowed};
ghost use Rattle.forms.specs.Laws.{ReadsBack};
ghost use Rattle.forms.specs.Writing.{Wrote, NoRoom};

use super::Unreadable;
use super::calls::{Call, Kind};
use super::table::forms;

// Writes the line to the front of `out`, and answers its length, or refuses where `out` is too short.
fn print(line: &[u8], out: &mut [u8]) -> Result<usize, Unreadable>
    ensures { MatchResult result (λ n. Wrote out.old line.now n out.new) (λ e. NoRoom out.old line.now e.place out.new) }
{
    if line.len() > out.len() {
        return Err(Unreadable { place: 0 });
    }
    out[..line.len()].copy_from_slice(line);
    Ok(line.len())
}

// Writes the call to the front of `out` and answers its length, or refuses it at place 0 and leaves `out` as it was.
#[tactic(auto, using(crate::proofs::Readings::reads_back))]
pub fn write(opened: Option<Kind>, call: &Call, out: &mut [u8]) -> Result<usize, Unreadable>
    ensures cases { MatchResult result
        (λ n. Allowed opened call.now × Wrote out.old (written call.now) n out.new)
        (λ e. (e.place ≡ 0) × (out.new ≡ out.old)
        × (Allowed opened call.now → length out.old < length (written call.now))) }
    ensures back { ReadsBack opened }
{
    let form = call.form();
    if !forms(opened).contains(&form) {
        return Err(Unreadable { place: 0 });
    }
    let line = form
        .pattern()
        .line(&call.numbers())
        .ok_or(Unreadable { place: 0 })?;
    print(&line, out)
}
