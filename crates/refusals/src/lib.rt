//! Why the bytes of a Java text stand for no unit.
#![tactic(auto)]

mod refusal;

pub use refusal::{Many, Refusal};
