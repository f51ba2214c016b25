//! The problem that the text of a file poses under a class, a method and a scope, or why it poses none.
#![tactic(auto)]

mod problem;

pub use problem::{JAVA_LIMIT, Unposed, read_problem, without_problem};
