//! Heaps, starts and problems, and the definitions of what a clause evaluates to, what a run does
//! and when a contract is broken.
#![tactic(auto)]

mod fields;
mod judged;
mod kinds;
mod laws;
mod numbers;
mod operators;
mod problem;
mod start;
mod value;
pub mod visit;

pub use fields::{field, grow, read, write};
pub use judged::{Judged, Part};
pub use kinds::is_of;
pub use laws::{
    kinds_hold, laws_of_closure, no_turn_left, reach_is_least_closed, starts_are_answered,
    the_run_decides,
};
pub use numbers::{flag, negative, number, zero_of};
pub use operators::{operated, opposite};
pub use problem::{Problem, method_in, well_posed};
pub use start::Start;
pub use value::{Object, Seen, Value};
