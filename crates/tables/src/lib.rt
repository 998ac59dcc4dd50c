// Layer two of document 01: set tables, but for filling the exchange table. The best table holds the most members, and
// then weeks, that disjoint marked sets can hold.
// Sets stay numbers here: that of a set is the place of its entry, as C lends the tables.
#![tactic(auto)]

mod best;
mod filling;
mod fours;
mod parts;
mod worths;

pub use best::{BestFilled, fill_best};
pub use worths::MEMBER;
