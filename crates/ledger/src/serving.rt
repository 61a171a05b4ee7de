// Any call of the ledger, as a request.
ghost use Rattle.ledger.specs.Meaning.{state};
ghost use Rattle.ledger.specs.Owed.{Owed};
ghost use Rattle.ledger.specs.Requests.{call_of, said_of};

use crate::Ledger;
use crate::requests::{Request, Said};
use amount::Amount;
use refusal::Refusal;
use shelf::Shelf;

impl<S: Shelf> Ledger<S> {
    pub fn serve(&mut self, request: Request<S::Kind>) -> Result<Said<S::Kind>, Refusal>
        ensures { Owed (state S.Kind.Amount.limit S.Shelf.contents self.old) (call_of S.Kind.Amount.means request) (said_of S.Kind.Amount.means result) (state S.Kind.Amount.limit S.Shelf.contents self.new) }
    {
        match request {
            Request::Lay(bin) => Ok(Said::Laid(self.lay(bin)?)),
            Request::Report { bin } => Ok(Said::Shown(self.report(bin)?)),
        }
    }
}
