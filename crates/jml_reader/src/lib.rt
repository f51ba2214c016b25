//! Reading the expression of a clause.
#![tactic(auto)]

mod clauses;
mod descent;
mod fault;
mod reaches;
mod steps;
#[cfg(test)]
mod tests;
mod trees;

pub use clauses::{clause, predicate};
pub use fault::SyntaxFault;
