use crate::expressions::Sign;
use crate::names::Ident;

/// An expression of a clause, and the place of its first token.
#[cycle(jml)]
#[derive(Drop)]
pub struct JmlTree {
    pub at: u32,
    pub node: JmlNode,
}

/// The forms of expressions of clauses. The bool of `Quant` says `\forall`; its names are the class and the
/// variable, and then come its range and its body.
#[cycle(jml)]
#[derive(Drop)]
pub enum JmlNode {
    Num(u32),
    Flag(bool),
    Null,
    This,
    Result,
    Named(Ident),
    Read(Box<JmlTree>, Ident),
    Paren(Box<JmlTree>),
    Not(Box<JmlTree>),
    Neg(Box<JmlTree>),
    Bin(Sign, Box<JmlTree>, Box<JmlTree>),
    Old(Box<JmlTree>),
    Quant(bool, Ident, Ident, Option<Box<JmlTree>>, Box<JmlTree>),
    Has(ReachTree, Box<JmlTree>),
    Size(ReachTree),
}

/// What is reached from an object over fields of a class.
#[cycle(jml)]
#[derive(Drop)]
pub struct ReachTree {
    pub root: Box<JmlTree>,
    pub class: Ident,
    pub fields: Vec<Ident>,
}
