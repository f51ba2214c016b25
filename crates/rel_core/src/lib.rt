//! Relational formulas over a heap and program variables: their types, their meaning under a valuation, and
//! what a valuation shows of heaps, starts and states.
#![tactic(auto)]

mod connectives;
mod copies;
mod formula;
mod formula_builders;
mod holds;
mod indices;
mod laws;
mod lists;
mod number_builders;
mod numbers;
mod relation;
mod set_builders;
mod sets;
#[cfg(test)]
mod tests;
mod valuation;

pub use formula::Formula;
pub use indices::Indices;
pub use laws::{heaps_are_read, starts_are_one, starts_are_shown, states_are_shown};
pub use numbers::NumExpr;
pub use relation::{RelVar, What};
pub use sets::RelExpr;
pub use valuation::Valuation;
