//! Sets of tuples as words of 64 bits: tuple t is bit t mod 64 of word t / 64.
#![tactic(auto)]

mod laws;
mod occurring;
mod tuples;
mod words;

pub use laws::good_starts_are_possible;
pub use occurring::tuples_of;
pub use tuples::word_count;
pub use words::{all_below, has, mask_of, meet, none_of, union, words_for};
