//! Canonical starts as a formula.
#![tactic(auto)]

mod formula;
mod laws;
mod objects;
mod order;
mod places;
mod places_below;
mod problems;
mod shape;
#[cfg(test)]
mod tests;
mod values;

pub use formula::canon_formula;
pub use laws::canonical_by_links;
