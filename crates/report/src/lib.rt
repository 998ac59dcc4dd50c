// Layer four of document 01: the text that the workshop program prints, from the bytes of its two files.
#![tactic(auto)]

mod lines;
mod reporting;
mod text;

pub use reporting::{COUNTED, report};
pub use text::ROOM;
