//! Reading expressions of code and of clauses: its definition, its laws, and what the readers of both share.
#![tactic(auto)]

mod brackets;
mod laws;
mod levels;
mod operators;

pub use brackets::empty;
pub use laws::a_clause_has_one_tree_at_most;
pub use levels::deeper;
pub use operators::{Link, goes_on};
