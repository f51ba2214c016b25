//! The statuses with which the program ends, and the texts that it prints and reads of problems,
//! starts, verdicts, replays, formulas and refusals.
#![tactic(auto)]

mod fault;
mod formula;
mod laws;
mod line_reader;
mod parts;
mod refusal;
mod replay;
mod report;
mod state;
mod state_reader;
mod status;
mod value_reader;
mod writing;

pub use fault::StateFault;
pub use formula::{
    badline_text, refuted_text, satisfiable_text, unknown_text, unsatisfiable_text, valid_text,
};
pub use laws::a_state_has_one_text_and_a_text_one_start;
pub use refusal::refusal_text;
pub use replay::replay_text;
pub use report::{holds_text, violated_text};
pub use state::state_text;
pub use state_reader::read_state;
pub use status::Status;

#[cfg(test)]
mod tests;
