//! Circuits of formulas within an upper bound: the gate of a formula, with an input of its own for each tuple
//! that a table still has.
#![tactic(auto)]

mod bits;
mod changes;
mod classes;
mod formulas;
mod inputs;
mod limits;
mod members;
mod named;
mod naming;
mod number_walk;
mod numbers;
mod truths;
mod tuples;
mod uses;
mod widths;
