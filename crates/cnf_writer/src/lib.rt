//! The clauses of a circuit, by Tseitin's transformation.
#![tactic(auto)]

#[cfg(test)]
mod tests;
mod writer;

pub use writer::write;
