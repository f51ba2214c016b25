//! Derivations by unit propagation: logs of clauses with hints, and the check that each line follows.
#![tactic(auto)]

mod checker;
mod cnf_reader;
mod comment;
mod cut;
mod effect;
mod entry;
mod fault;
mod fields;
mod laws;
mod line;
mod log;
mod log_reader;
mod number;
#[cfg(test)]
mod tests;
mod trues;
mod words;
mod writer;

pub use checker::{Checked, check};
pub use cnf_reader::read_cnf;
pub use effect::Effect;
pub use fault::{CheckFault, TextFault};
pub use laws::{fresh_lines_are_distinct, hints_count_from_one, what_follows_is_true};
pub use line::Line;
pub use log::Log;
pub use log_reader::read_log;
pub use writer::{cnf_text, log_text};
