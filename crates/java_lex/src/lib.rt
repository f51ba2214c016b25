//! The tokens of a Java text with JML annotations.
#![tactic(auto)]

mod classes;
mod fault;
mod front;
mod laws;
mod lexer;
mod literals;
mod spelling;
mod tables;
mod terminal;
#[cfg(test)]
mod tests;
mod token;
pub mod words;

pub use fault::LexFault;
pub use laws::{a_text_is_cut_in_one_way, symbols_are_as_long_as_they_can_be};
pub use lexer::tokens;
pub use spelling::{Absent, Terminal};
pub use token::{Lexeme, Token, TokenKind};
