//! The words of the command line: what they ask for.
#![tactic(auto)]

mod commands;
mod list;
mod number;
mod parse;
mod reading;
mod request;
mod words;

pub use request::{Job, Request, RequestFault, Schedule, Text};
pub use words::request_of;

#[cfg(test)]
mod tests;
