// Layer three of document 01: clearing. Both tables, and the first of the plans that are worth most, chosen step by step.
#![tactic(auto)]

mod choice;
mod choosing;
mod chosen_record;
mod clearing;
mod seeking;
mod step;

pub use clearing::{Cleared, clear, clear_value};
