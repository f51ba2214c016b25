//! Sets of references, relations between objects and graphs on gates: joins, the only object of a set,
//! inclusion, and what is reached along a graph.
#![tactic(auto)]

mod choices;
mod graphs;
mod rows;
mod sets;
#[cfg(test)]
mod tests;

pub use choices::{chosen, same_places};
pub use graphs::{closed, led, no_edges, reached};
pub use rows::within;
pub use sets::{all_pass, at_only, join, only};
