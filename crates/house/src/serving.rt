// Lines served by the ledger of an open house.
ghost use Rattle.std.specs.Prelude.{◌≡◌};
ghost use Rattle.shelf.specs.Bins.{figures};
ghost use Rattle.ledger.specs.Meaning.{state};
ghost use Rattle.ledger.specs.Requests.{said_of};
ghost use Rattle.house.specs.Text.{answer_text, written_in, said_text};
ghost use Rattle.house.specs.Serving.{asked, request_of, bin_in, serve_line, result_text, Served};

use crate::answer::Answer;
use crate::kind::Written;
use amount::Amount;
use forms::calls::{Call, Figures};
use forms::read;
use ledger::Ledger;
use ledger::requests::{Request, Said};
use refusal::Refusal;
use shelf::Shelf;
use shelf::records::{Bin, NewBin};

// What a call asks of the ledger; its amounts are made in written order. No line of an open house reads as the call
// that opens one, so the place in its refusal is never told.
fn request<K: Written>(call: Call) -> Result<Request<K>, Refusal>
    ensures { asked K.Amount.means result ≡ request_of K.Written.KIND call }
{
    match call {
        Call::House(_) => Err(Refusal::Unreadable { place: 0 }),
        Call::Lay { min, max, now } => Ok(Request::Lay(NewBin {
            min: K::make(min)?,
            max: K::make(max)?,
            start: K::make(now)?,
        })),
        Call::Report { bin } => Ok(Request::Report { bin }),
    }
}

// The bin that a call names, and 0 of one that names none: the text of an answer takes a bin for every call.
fn bin_in(call: Call) -> u32
    ensures { result ≡ bin_in call }
{
    match call {
        Call::House(_) | Call::Lay { .. } => 0,
        Call::Report { bin } => bin,
    }
}

// A bin in the figures of its kind. Field by field: a map over the five would need a clause about each.
fn written<K: Written>(bin: Bin<K>) -> Bin<Figures>
    ensures { result ≡ written_in K.Written.KIND (figures K.Amount.means bin) }
{
    Bin {
        min: bin.min.figures(),
        max: bin.max.figures(),
        inf: bin.inf.figures(),
        val: bin.val.figures(),
        sup: bin.sup.figures(),
    }
}

// The answer that the ledger's word makes.
fn answer_to<K: Written>(bin: u32, said: Said<K>) -> Answer
    ensures { answer_text result ≡ said_text K.Written.KIND bin (said_of K.Amount.means (Ok said)) }
{
    match said {
        Said::Laid(number) => Answer::Laid(number),
        Said::Shown(shown) => Answer::Bin {
            bin,
            figures: written(shown),
        },
    }
}

// Serves one line; a fault in it goes up with its place, and what the ledger refuses goes up too.
#[tactic(auto, unfolding(crate::specs::Serving::serve_line))]
pub(crate) fn serve_line<K: Written, S: Shelf<Kind = K>>(
    ledger: &mut Ledger<S>,
    line: &[u8],
) -> Result<Answer, Refusal>
    ensures { Served (state K.Amount.limit S.Shelf.contents ledger.old) (result_text result) (state K.Amount.limit S.Shelf.contents ledger.new) (serve_line K.Written.KIND (state K.Amount.limit S.Shelf.contents ledger.old) line.now) }
{
    let reading = read(Some(K::KIND), line)?;
    let request = request(reading.call)?;
    let said = ledger.serve(request)?;
    Ok(answer_to(bin_in(reading.call), said))
}
