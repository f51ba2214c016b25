//! The commands over the texts of formulas: `sat` searches, `proof` checks a log.
#![tactic(auto)]

mod laws;
mod proof_command;
mod sat_command;
mod text;

pub use laws::printed_logs_are_accepted;
pub use proof_command::check_log;
pub use sat_command::{Searched, search_formula};
pub use text::{TEXT_LIMIT, TextEnd};
