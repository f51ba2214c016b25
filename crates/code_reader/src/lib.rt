//! Reading expressions of code, and arguments in their brackets.
#![tactic(auto)]

mod code;
mod descent;
#[cfg(test)]
mod tests;
mod trees;

pub use code::{arguments, expression};
pub use trees::{called, plain};
