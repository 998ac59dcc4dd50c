// Layer one of document 01: a pool as a value, the limits, and the causes of refusal by number and spot.
#![tactic(auto)]

mod givers;
mod limits;
mod refusal;
mod value;

pub use givers::all_givers;
pub use limits::Limits;
pub use refusal::{Cause, Refusal};
pub use value::Pool;
