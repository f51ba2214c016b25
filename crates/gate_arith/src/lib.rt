//! Logic and arithmetic on gates: numbers in two's complement, with a gate that says whether a result lies
//! within the width.
#![tactic(auto)]

mod adder;
mod choose;
mod compare;
mod counter;
mod lists;
mod logic;
mod multiplier;
#[cfg(test)]
mod tests;

pub use adder::{difference, sum};
pub use choose::select;
pub use compare::{below, same};
pub use counter::count;
pub use lists::{all_of, any_of};
pub use logic::{both, choice, either, exclusive_or};
pub use multiplier::product;
