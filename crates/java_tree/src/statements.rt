use crate::expressions::JavaTree;
use crate::names::{Ident, Modifier, TypeTree};

/// A name that is declared, and the value that it begins with.
#[derive(Drop)]
pub struct DeclTree {
    pub name: Ident,
    pub value: Option<JavaTree>,
}

/// A statement. The number of `While` and `Return` is the place of that word; the bool of `Step` says up.
#[derive(Drop)]
pub enum StmtTree {
    Block(Vec<StmtTree>),
    Empty,
    If(JavaTree, Box<StmtTree>, Option<Box<StmtTree>>),
    While(u32, JavaTree, Box<StmtTree>),
    Return(u32, Option<JavaTree>),
    Local(Vec<Modifier>, TypeTree, Vec<DeclTree>),
    Set(JavaTree, JavaTree),
    Step(JavaTree, bool),
    Run(JavaTree),
}
