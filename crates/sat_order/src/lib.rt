//! The decision queue: variables in an order in which one moves to the front in constant time.
#![tactic(auto)]

mod queue;
mod ring;

pub use queue::Queue;
