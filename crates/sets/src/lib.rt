// Sets of vertices as values with operations of their own.
#![tactic(auto)]

mod vertex_set;

pub use vertex_set::VertexSet;
