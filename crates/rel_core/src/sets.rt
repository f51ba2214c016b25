use crate::relation::RelVar;
use sqlite_items::{Boxed, Items};

/// A set of values: null and objects.
#[cycle(set)]
#[derive(Drop)]
pub enum RelExpr {
    /// The references of a relation at place 0.
    Var(RelVar),
    /// Null alone.
    Nil,
    /// The object of this number alone.
    Object(u8),
    /// The references of a relation at the objects of a set.
    Join(Boxed<RelExpr>, RelVar),
    /// The objects of a set, and with each object the objects that these relations have there.
    Reach(Boxed<RelExpr>, Items<RelVar>),
}
