//! The table of tuples that workers shrink: its state machine, and the same table on atomic words.
#![tactic(auto)]

mod bounds;
mod event;
mod known;
mod laws;
mod machine;
mod marks;
mod pass;
mod rule;

pub use bounds::Bounds;
pub use event::{Event, Reply};
pub use known::Known;
pub use laws::{
    claimed_once, claims_are_apart, exact_marks_agree, never_goes_back, others_keep_all, stays_safe,
};
pub use machine::Core;
pub use marks::{Mark, Marks};
pub use pass::Pass;
