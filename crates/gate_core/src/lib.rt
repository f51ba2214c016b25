//! Circuits: an arena of gates, in which equal conjunctions are one gate.
#![tactic(auto)]

mod arena;
mod circuit;
mod conjunction;
mod gates;
#[cfg(test)]
mod tests;

pub use circuit::{Gate, Node};
pub use gates::{Gates, inputs_below_decide, pairs_have_one_gate};
