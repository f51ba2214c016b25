//! Conflict analysis: the clause that is learnt at the first unique implication point, as a line of a log.
#![tactic(auto)]

mod gather;
mod learn;
mod marks;
mod minimise;
mod notes;
mod walk;

pub use learn::{Learnt, refute};
pub use marks::Marks;
pub use minimise::Minimiser;
pub use notes::Notes;
