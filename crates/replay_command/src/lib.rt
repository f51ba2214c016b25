//! The command `replay`: a method of one file is run on the start that another file says, and the run is judged.
#![tactic(auto)]

mod command;

pub use command::{STATE_LIMIT, replay_start};
