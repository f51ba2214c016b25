//! The unit of the bytes of a Java text, or their first fault.
#![tactic(auto)]

mod laws;
mod reading;
mod refusal;

pub use laws::{a_text_declares_words, bytes_have_one_unit_or_one_first_fault};
pub use reading::unit_of;
pub use refusal::Unread;
pub use refusals::Refusal;
