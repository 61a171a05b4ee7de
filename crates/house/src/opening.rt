// The line that opens a house.
ghost use Rattle.std.specs.Prelude.{◌≡◌};
ghost use Rattle.house.specs.Run.{built, opening_of};

use forms::calls::{Call, HouseForm, Layout};
use forms::read;
use refusal::Refusal;

// Whether shelves of the layout are built: the chained shelf is not, yet.
fn is_built(layout: Layout) -> bool
    ensures { result ≡ built layout }
{
    layout == Layout::Flat
}

// The house that the line opens: one on a fit shelf. No other call is read before a house is open, so the place in its
// refusal is never told. Capacities go by `as usize`, since no `From` leads from `u32` to `usize`.
#[tactic(auto, unfolding(crate::specs::Run::opening_of))]
pub(crate) fn opening(line: &[u8]) -> Result<HouseForm, Refusal>
    ensures { result ≡ opening_of line.now }
{
    let reading = read(None, line)?;
    let Call::House(form) = reading.call else {
        return Err(Refusal::Unreadable { place: 0 });
    };
    if ledger::fits(form.bins as usize, form.grants as usize) && is_built(form.layout) {
        Ok(form)
    } else {
        Err(Refusal::UnfitShelf)
    }
}
