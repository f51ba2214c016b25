//! Clauses: literals, and formulas in conjunctive normal form with their truth.
#![tactic(auto)]

mod cnf;
mod lit;
#[cfg(test)]
mod tests;

pub use cnf::Cnf;
pub use lit::Lit;
