//! The command `check`: whether a method keeps its contract within the scopes. So far it is the trial of all
//! arguments of a method over booleans.
#![tactic(auto)]

mod command;

pub use command::check_method;
