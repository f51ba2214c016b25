//! What the verdict of a search rests on.
#![tactic(auto)]

use cnf_core::Cnf;
use derivation::Log;

/// What a verdict rests on.
#[derive(Drop)]
pub struct Evidence {
    /// The formula that was searched.
    pub cnf: Cnf,
    /// The lines that were learnt, of which each follows from the formula and the lines before it.
    pub log: Log,
    /// The formula's variables, counted from 1, that stand for tuples of a heap, in tuple order; a
    /// formula that was read has none.
    pub tuple_vars: Vec<u32>,
}
