//! The unit of a Java text with its contracts: classes, fields, methods, clauses, statements and
//! expressions, with all names resolved to numbers and all kinds fitting.
#![tactic(auto)]

mod expr;
mod kind;
mod name;
mod scope;
mod stmt;
#[cfg(test)]
mod tests;
mod unit;

pub use expr::{Call, Expr, Op, Quant, Reach};
pub use kind::Kind;
pub use name::Name;
pub use scope::{Plan, Scope};
pub use stmt::Stmt;
pub use unit::{ClassDef, Clause, FieldDef, MethodDef, ParamDef, Unit};
