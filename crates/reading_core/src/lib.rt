//! What the readers of clauses and of texts share: the result of reading, the machine that tells what begins a
//! text, and the walk over tokens.
#![tactic(auto)]

mod cursor;
mod levels;
mod stop;

pub use cursor::{close, comma, first, ident, is_word, name, number, open, semicolon, terminal_at};
pub use levels::{LEVELS, lower};
pub use stop::Stop;
