use crate::relation::RelVar;
use crate::sets::RelExpr;
use sqlite_items::Boxed;

/// A number, which a formula may lack: where it leaves the width of the problem's numbers.
#[cycle(number)]
#[derive(Drop)]
pub enum NumExpr {
    Const(i32),
    /// The number of a relation at place 0.
    Var(RelVar),
    /// The number of a relation at the only object of a set, and 0 where the set has not exactly one object.
    At(Boxed<RelExpr>, RelVar),
    Sum(Boxed<NumExpr>, Boxed<NumExpr>),
    /// The first less the second.
    Diff(Boxed<NumExpr>, Boxed<NumExpr>),
    Product(Boxed<NumExpr>, Boxed<NumExpr>),
    /// How many objects a set has.
    Count(Boxed<RelExpr>),
}
