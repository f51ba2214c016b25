//! Path formulas of whole programs: sequences, branches that are joined, and programs without iterations.
#![tactic(auto)]

mod joining;
mod looking;
mod paths;
mod starts;
mod walk;

pub use paths::{Path, path_formula};
pub use starts::{rest_is_zero, starts_are_states};
