//! Clauses of JML as relational formulas.
#![tactic(auto)]

mod asked;
mod clauses;
mod fields;
mod guards;
mod heaps;
mod invariants;
mod laws;
mod links;
mod place;
mod variables;
mod walk;

pub use clauses::{Three, clause_formulas};
pub use heaps::{good_formula, inside_formula};
pub use laws::{
    entries_are_shown, entries_are_sorted, exits_are_shown, exits_are_sorted, invariants_are_shown,
};
