//! Expressions of code and of clauses, with each name resolved to a number: their kinds, or their faults.
#![tactic(auto)]

mod clauses;
mod code;
mod literals;

pub use clauses::jml;
pub use code::{call, java, target};
