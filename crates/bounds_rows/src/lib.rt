//! Tests of the table of tuples, and of sets of tuples, on small problems.
#![tactic(auto)]

#[cfg(test)]
mod sets;
#[cfg(test)]
mod tests;
