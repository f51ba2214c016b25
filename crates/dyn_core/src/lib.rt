//! DynAlloy programs: actions, tests, sequence, choice and iteration over variables and a heap; their
//! runs, their kinds, and their iterations written out.
#![tactic(auto)]

mod iterations;
mod laws;
mod prog;
mod state;
#[cfg(test)]
mod tests;

pub use iterations::unroll;
pub use laws::{runs_by_cases, runs_keep_kinds, starless_runs_alike};
pub use prog::{Act, Prog};
pub use state::DynState;
