//! Propagation over two watched literals a clause: the trail, and clauses with linked watch lists.
#![tactic(auto)]

mod trail;
mod watches;

pub use trail::{Entry, Trail};
pub use watches::Watches;

#[cfg(test)]
mod tests;
