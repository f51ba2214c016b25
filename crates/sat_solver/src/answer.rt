use cnf_core::Cnf;
use derivation::Log;

/// What a search found.
#[derive(Drop)]
pub enum SatAnswer {
    /// Values that satisfy the formula, one for each variable from 1 on.
    Satisfied(Vec<bool>),
    /// No values do.
    Refuted,
    /// As many lines were learnt as the budget says.
    Spent,
}

/// The answer of a search, with its formula and the lines that it learnt.
#[derive(Drop)]
pub struct Solved {
    pub answer: SatAnswer,
    pub cnf: Cnf,
    pub log: Log,
}
