//! What is printed of a tree is read again as that tree.
#![tactic(auto)]

mod laws;

pub use laws::a_printed_text_is_read_again;
