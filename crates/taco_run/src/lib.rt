//! The top call: a request is read from the words of a command line and done, and what it has to
//! say goes to the sink.
#![tactic(auto)]

mod answer;
mod call;

pub use answer::Answer;
pub use call::{run, run_plain};
pub use evidence::Evidence;
pub use taco_report::Status;
pub use taco_words::{Job, Request, RequestFault, Schedule, Text, request_of};
