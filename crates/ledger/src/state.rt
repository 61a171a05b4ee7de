// What a ledger keeps beside its shelf.

// A ledger above any shelf. `fit` is found at opening; `last` is the last batch number, 0 before the first,
// as in the rules' own state: each new number has to be greater.
// `fit` is a flag and not another type, since an unfit ledger keeps its shelf and answers every call.
// It has no `Model`: the value would hold a function, what the shelf means, and a function has no code.
#[derive(Drop)]
pub struct Ledger<S> {
    pub(crate) house: u32,
    pub(crate) fit: bool,
    pub(crate) last: u32,
    pub(crate) shelf: S,
}
