// The calls for C, and so for Rust and Python. Each answers four numbers.
#![tactic(auto)]

mod answer;
mod check;
mod clear;
mod fill;
mod read_pool;

pub use answer::Answer;
pub use check::swap_check;
pub use clear::swap_clear;
pub use fill::{swap_fill_best, swap_fill_exchanges};
pub use read_pool::swap_read_pool;
