use sqlite_items::{Boxed, Items};

/// An operator between two operands, in the order of the grammar's levels.
#[derive(Clone, Copy, Debug, PartialEq, Eq)]
pub enum Op {
    Add,
    Sub,
    Mul,
    Eq,
    Ne,
    Lt,
    Le,
    Gt,
    Ge,
    And,
    Or,
    Implies,
    Iff,
}

/// An expression of a clause or of code.
///
/// Parameters are the first locals. A quantified variable has the number of quantifiers of its
/// clause that stand around its own. A field of `this` that is named alone is a read of `This`.
#[cycle(expr)]
#[derive(Drop)]
pub enum Expr {
    Num(i32),
    Flag(bool),
    Null,
    This,
    /// `\result`
    Result,
    Local(u8),
    Bound(u8),
    /// The field of this number of an object.
    Read(Boxed<Expr>, u8),
    Neg(Boxed<Expr>),
    Not(Boxed<Expr>),
    Bin(Op, Boxed<Expr>, Boxed<Expr>),
    Quant(Quant),
    /// `\old`
    Old(Boxed<Expr>),
    /// `.has` of a `\reach`
    Has(Reach, Boxed<Expr>),
    /// `.int_size` of a `\reach`
    Size(Reach),
    /// `new` of the class of this number
    New(u8),
    Call(Call),
}

/// `\forall` where `all` says so, and else `\exists`, over the objects of a class.
#[cycle(expr)]
#[derive(Drop)]
pub struct Quant {
    pub all: bool,
    pub class: u8,
    /// The number of the quantified variable.
    pub bound: u8,
    pub range: Option<Boxed<Expr>>,
    pub body: Boxed<Expr>,
}

/// `\reach(from, class, fields)`: the objects that can be reached along the fields, from `from` on.
#[cycle(expr)]
#[derive(Drop)]
pub struct Reach {
    pub from: Boxed<Expr>,
    pub class: u8,
    pub fields: Items<u8>,
}

/// A call of the method of this number. A static method has no target.
#[cycle(expr)]
#[derive(Drop)]
pub struct Call {
    pub method: u8,
    pub target: Option<Boxed<Expr>>,
    pub args: Items<Expr>,
}
