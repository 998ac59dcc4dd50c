// Layer three of document 01: plans, but for clearing. The form of a plan record, record k of plan bytes, and the checker.
#![tactic(auto)]

mod arcs;
mod check_record;
mod checker;
mod kind;
mod record_part;
mod rules;
mod vertices;

pub use checker::check;
pub use kind::ExchangeKind;
pub use record_part::{PlanRecord, record};
