//! What all commands share: what a request comes to, how a refusal and a silent end are made, and the
//! reading of a file through a slot.
#![tactic(auto)]

mod file;
mod outcome;

pub use file::{FileEnd, ended, read_file};
pub use outcome::{Outcome, or_no_memory, refusal, silent};
