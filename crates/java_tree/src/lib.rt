//! The trees of Java texts with JML contracts, their grammar, and their printing.
#![tactic(auto)]

mod clauses;
mod expressions;
mod laws;
mod layout;
mod members;
mod names;
mod print_clauses;
mod print_code;
mod print_members;
mod print_statements;
mod printed;
mod statements;
#[cfg(test)]
mod tests;

pub use clauses::{JmlNode, JmlTree, ReachTree};
pub use expressions::{JavaNode, JavaTree, Sign};
pub use laws::{a_clause_has_one_fault_at_most, a_text_has_one_fault_at_most};
pub use layout::print;
pub use members::{ClassTree, Member, MethodTree, ParamTree, SpecTree, Tree};
pub use names::{Ident, ModWord, Modifier, TypeTree};
pub use statements::{DeclTree, StmtTree};
