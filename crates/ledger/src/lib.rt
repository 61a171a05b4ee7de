// The ledger over any shelf and any kind of amount.
#![tactic(auto)]

mod calls;
mod checks;
mod limits;
pub mod requests;
mod serving;
mod state;
mod working;

pub use checks::fits;
pub use state::Ledger;
