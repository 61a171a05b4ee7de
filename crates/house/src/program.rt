// A whole run: from the bytes read to the bytes printed.
// The lines left and the text printed stay two values: taken out of one, the lines could not be looped over by `for`.
ghost use Rattle.std.specs.Prelude.{◌≡◌, List, ◌++◌, IfOk, string_bytes, MatchOption, OnOk};
ghost use Rattle.ledger.specs.Meaning.{state};
ghost use Rattle.model.specs.Ledger.{opens};
ghost use Rattle.model.specs.Ledger.{Call as Calls};
ghost use Rattle.model.specs.Runs.{Reached};
ghost use Rattle.shelf.specs.Contents.{empty_contents};
ghost use Rattle.house.specs.Serving.{result_text};
ghost use Rattle.house.specs.Run.{printed, served, ledger_of, unopened, output};

use crate::answer::Answer;
use crate::kind::Written;
use crate::lines::Lines;
use crate::opening::opening;
use crate::serving::serve_line;
use amount::Amount;
use amount::grams::Grams;
use amount::trays::Trays;
use forms::calls::{HouseForm, Kind};
use ledger::Ledger;
use refusal::Refusal;
use shelf::Shelf;
use shelf::flat::FlatShelf;
use shelf::records::Bin;
use std::alloc::{AllocError, Global};

// The most bytes that are read.
pub const MOST_BYTES: usize = 65_536;

// Prints a line: the answer or the refusal.
fn print(out: &mut String, res: Result<Answer, Refusal>) -> Result<(), AllocError>
    ensures { OnOk result (string_bytes out.new ≡ string_bytes out.old ++ printed (result_text res)) }
{
    match res {
        Ok(answer) => writeln!(out, "{answer}")?,
        Err(why) => writeln!(out, "{why}")?,
    }
    Ok(())
}

// Serves each line.
fn serve_lines<K: Written, S: Shelf<Kind = K>>(
    ledger: &mut Ledger<S>,
    lines: Lines<'_>,
    out: &mut String,
) -> Result<(), AllocError>
    ensures { OnOk result ((cs : List Calls) → Reached (state K.Amount.limit S.Shelf.contents ledger.old) cs → string_bytes out.new ≡ string_bytes out.old ++ served K.Written.KIND (state K.Amount.limit S.Shelf.contents ledger.old) lines.entry) }
{
    for line in lines {
        print(out, serve_line(ledger, line))?;
    }
    Ok(())
}

// Opens a ledger on the shelf and serves the lines.
fn work<K: Written, S: Shelf<Kind = K> + Drop>(
    house: u32,
    shelf: S,
    lines: Lines<'_>,
    out: &mut String,
) -> Result<(), AllocError>
    ensures { OnOk result (string_bytes out.new ≡ string_bytes out.old ++ served K.Written.KIND (opens house K.Amount.limit (S.Shelf.contents shelf)) lines.entry) }
{
    let mut ledger = Ledger::open(house, shelf);
    serve_lines(&mut ledger, lines, out)
}

// The same on a flat shelf with memory of its own. No `From` leads from `u32` to `usize`, so capacities go by `as`.
fn work_flat<K: Written>(
    heap: Global,
    form: HouseForm,
    lines: Lines<'_>,
    out: &mut String,
) -> Result<(), AllocError>
    ensures { OnOk result (string_bytes out.new ≡ string_bytes out.old ++ served K.Written.KIND (opens form.house K.Amount.limit (empty_contents form.bins form.grants)) lines.entry) }
{
    let mut bins = vec![in heap; Bin::<K>::default(); form.bins as usize]?;
    let mut grants = vec![in heap; None; form.grants as usize]?;
    work(
        form.house,
        FlatShelf::new(&mut bins, &mut grants),
        lines,
        out,
    )
}

// Answers the lines up to the one that opens a house; those that follow it are for that house.
// The lines come by `next`. A `for` was tried: after it the check does not know what is left of a lent iterator.
#[tactic(auto, using(crate::proofs::Prints::one_opened))]
fn find_house(lines: &mut Lines<'_>, out: &mut String) -> Result<Option<HouseForm>, AllocError>
    ensures { IfOk result (λ found. MatchOption found (string_bytes out.new ≡ string_bytes out.old ++ unopened lines.old)
        (λ form. string_bytes out.new ++ served form.kind (ledger_of form) lines.new ≡ string_bytes out.old ++ unopened lines.old)) }
{
    while let Some(line) = lines.next() {
        match opening(line) {
            Ok(form) => {
                print(out, Ok(Answer::Opened(form.house)))?;
                return Ok(Some(form));
            }
            Err(why) => print(out, Err(why))?,
        }
    }
    Ok(None)
}

// What is printed for what was read. The error is left free: it says that memory ran out, and no contract can say when.
pub fn run(heap: Global, text: &[u8]) -> Result<String, AllocError>
    ensures { IfOk result (λ out. string_bytes out ≡ output text.now) }
{
    let mut out = String::new(heap);
    if text.len() > MOST_BYTES {
        writeln!(out, "(too long)")?;
        return Ok(out);
    }
    let mut lines = Lines::new(text);
    if let Some(form) = find_house(&mut lines, &mut out)? {
        match form.kind {
            Kind::Grams => work_flat::<Grams>(heap, form, lines, &mut out)?,
            Kind::Trays => work_flat::<Trays>(heap, form, lines, &mut out)?,
        }
    }
    Ok(out)
}
