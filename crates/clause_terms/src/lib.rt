//! What the outcome of a clause's evaluation is shown by: a value with two formulas, for each operator of clauses.
#![tactic(auto)]

mod after;
mod copies;
mod instances;
mod laws;
mod leaves;
mod numbers;
mod operators;
mod reach;
mod reads;
mod term;
mod truths;

pub use instances::Instances;
pub use laws::{chains_go_right, flags_settle, other_fields_are_lacking};
pub use term::{Shape, Term, Truth};
