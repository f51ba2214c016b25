//! The search for values that satisfy a formula, with a log of each line that it learns.
#![tactic(auto)]

mod answer;
mod load;
mod pace;
mod search;
mod solver;
mod tables;
mod turns;

pub use answer::{SatAnswer, Solved};
pub use solver::Solver;

#[cfg(test)]
mod tests;
