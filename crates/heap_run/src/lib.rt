//! The run of a method from a given start.
#![tactic(auto)]

mod calling;
mod code;
mod exits;
mod machine;
mod runs;
mod statements;
mod steps;
mod tasks;
mod values;

pub use machine::Outcome;
pub use runs::{RunEnd, run};
