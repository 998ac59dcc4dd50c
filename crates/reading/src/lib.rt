// Layer one of document 01: records and arcs. Pool bytes become a pool value, or a refusal by number and spot.
#![tactic(auto)]

mod arcs;
mod fields;
mod kind;
mod places;
mod pool_bytes;
mod records;

pub use fields::PoolRecord;
pub use pool_bytes::read_pool;
