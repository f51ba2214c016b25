//! The unit of a tree, or its first fault of names and kinds.
#![tactic(auto)]

mod classes;
mod fault;
mod members;
#[cfg(test)]
mod pieces;
mod resolution;
#[cfg(test)]
mod tests;
mod unit;

pub use fault::NameFault;
pub use resolution::resolve;
