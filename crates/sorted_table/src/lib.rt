// An ordered table over places that its caller lends: entries in key order, no key twice, for every
// key type with a total order. It allocates nothing and can hold as many entries as it is lent places.
//
// Who needs entries in the order of arrival, or takes entries out again, should use something else.
#![tactic(auto)]

mod key;
mod merge;
mod place;
mod run;
mod search;
mod table;

pub use key::Key;
pub use merge::RunRefused;
pub use place::Place;
pub use run::{Run, Slice};
pub use search::find_in;
pub use table::SortedTable;

#[cfg(test)]
mod tests;
