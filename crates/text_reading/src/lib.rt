//! Whole texts: what the grammar says of their tokens, and that reading tells it.
#![tactic(auto)]

mod laws;

pub use laws::{
    a_text_of_bytes_is_judged, reading_tells_the_verdict, tokens_are_one_text_or_have_one_fault,
};

#[cfg(test)]
mod tests;
