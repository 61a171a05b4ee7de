// Examples, run against the crates as a user would call them.
#![tactic(auto)]

#[cfg(test)]
mod amounts;
#[cfg(test)]
mod lines;
#[cfg(test)]
mod runs;
#[cfg(test)]
mod shelves;
