//! The reader of Java texts.
#![tactic(auto)]

mod classes;
mod clauses;
mod declarations;
mod fault;
mod headers;
mod members;
mod modifiers;
mod parameters;
mod places;
mod source;
mod statements;
#[cfg(test)]
mod tests;
mod types;
mod units;

pub use fault::SourceFault;
pub use source::read_unit;
