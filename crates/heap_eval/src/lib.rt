//! What a clause evaluates to in explicit heaps.
#![tactic(auto)]

mod combine;
mod environment;
mod reach;
mod walk;

pub use environment::Environment;
pub use walk::evaluate;
