//! What is so of any two answers to one request.
#![tactic(auto)]

mod laws;

pub use laws::{a_refused_text_has_one_place, one_request_has_one_status};
