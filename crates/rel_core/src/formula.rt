use crate::numbers::NumExpr;
use crate::relation::RelVar;
use crate::sets::RelExpr;
use sqlite_items::{Boxed, Items};

/// A relational formula.
#[cycle(formula)]
#[derive(Drop)]
pub enum Formula {
    Const(bool),
    /// The flag of a relation at place 0.
    Flag(RelVar),
    /// A set is exactly one object, and the relation's flag there is true.
    FlagAt(Boxed<RelExpr>, RelVar),
    /// Each value of the first set is in the second.
    Subset(Boxed<RelExpr>, Boxed<RelExpr>),
    /// Every object of a set has the class of this number, by the relation.
    IsClass(Boxed<RelExpr>, u8, RelVar),
    /// Both numbers are there and are the same.
    SameNum(Boxed<NumExpr>, Boxed<NumExpr>),
    /// Both numbers are there, and the first is below the second.
    BelowNum(Boxed<NumExpr>, Boxed<NumExpr>),
    /// The number is there.
    Fits(Boxed<NumExpr>),
    /// The first relation is the last one, but that at each object of the set it has what the third relation has
    /// at place 0.
    Changed(RelVar, Boxed<RelExpr>, RelVar, RelVar),
    Not(Boxed<Formula>),
    And(Items<Formula>),
    Or(Items<Formula>),
    /// Both formulas have one truth value.
    Same(Boxed<Formula>, Boxed<Formula>),
}
