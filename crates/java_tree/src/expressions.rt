use crate::names::Ident;

/// The operators between two operands.
#[derive(Clone, Copy, Debug, PartialEq, Eq)]
pub enum Sign {
    Add,
    Sub,
    Mul,
    Eq,
    Ne,
    Lt,
    Le,
    Gt,
    Ge,
    And,
    Or,
    Implies,
    Iff,
}

/// An expression of code, and the place of its first token.
#[cycle(java)]
#[derive(Drop)]
pub struct JavaTree {
    pub at: u32,
    pub node: JavaNode,
}

/// The forms of expressions of code.
#[cycle(java)]
#[derive(Drop)]
pub enum JavaNode {
    Num(u32),
    Flag(bool),
    Null,
    This,
    New(Ident),
    Named(Ident),
    Call(Ident, Vec<JavaTree>),
    Read(Box<JavaTree>, Ident),
    CallOn(Box<JavaTree>, Ident, Vec<JavaTree>),
    Paren(Box<JavaTree>),
    Not(Box<JavaTree>),
    Neg(Box<JavaTree>),
    Bin(Sign, Box<JavaTree>, Box<JavaTree>),
}
