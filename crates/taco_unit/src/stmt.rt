use crate::expr::{Call, Expr};
use sqlite_items::{Boxed, Items};

/// A statement of a method's body. An absent `else` and an empty statement are an empty block.
#[derive(Drop)]
pub enum Stmt {
    Block(Items<Stmt>),
    /// A local is set to a value.
    Set(u8, Expr),
    /// The field of this number of an object is set to a value.
    Write(Expr, u8, Expr),
    /// `++` of a local where the flag is true, and else `--`.
    StepLocal(u8, bool),
    /// `++` of a field of an object where the flag is true, and else `--`.
    StepField(Expr, u8, bool),
    If(Expr, Boxed<Stmt>, Boxed<Stmt>),
    While(Expr, Boxed<Stmt>),
    Return(Option<Expr>),
    Run(Call),
}
