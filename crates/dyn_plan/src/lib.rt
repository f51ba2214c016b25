//! Java code as plans: steps whose choices are all decided by a flag, what they do, and the DynAlloy
//! programs of which they have the runs.
#![tactic(auto)]

mod laws;
mod plan;
mod program;

pub use laws::{executions_end_whole, plans_do_as_code, plans_run_as_programs};
pub use plan::Plan;
pub use program::program_of;
