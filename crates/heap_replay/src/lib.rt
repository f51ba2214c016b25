//! The judgement of a run: whether it meets its contract, and which part it breaks first.
#![tactic(auto)]

mod broken;
mod clauses;
mod good;
mod replays;

pub use heap_run::Outcome;
pub use replays::{Replayed, replay};
