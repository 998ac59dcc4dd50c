// Layer two of document 01: set tables. The exchange table marks the sets that a cycle or chain uses.
// Sets and ends stay numbers here: that of a set is the place of its entry, and its ends are the entry, as C lends the table.
#![tactic(auto)]

mod abreast;
mod by_lowest;
mod exchanges;
mod filling;
mod path_ends;
mod vertices;

pub use exchanges::{fill_exchanges, test_exchanges};
