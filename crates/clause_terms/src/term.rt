use rel_core::{Formula, NumExpr, RelExpr};
use sqlite_items::Boxed;

/// What shows the value that an evaluation gives, where it gives one.
#[derive(Drop)]
pub enum Shape {
    /// A reference: the only one of a set.
    Set(Boxed<RelExpr>),
    /// A number.
    Number(Boxed<NumExpr>),
    /// A truth value: whether a formula holds.
    Truth(Boxed<Formula>),
}

/// What an outcome is shown by.
#[derive(Drop)]
pub struct Term {
    /// The value. It means nothing where there is none.
    pub value: Shape,
    /// Holds exactly where the evaluation gives a value.
    pub fine: Boxed<Formula>,
    /// Holds exactly where the evaluation stays within the scopes.
    pub inside: Boxed<Formula>,
}

/// What an outcome that is taken as a truth value is shown by.
#[derive(Drop)]
pub struct Truth {
    /// Whether it is true. It means nothing where there is no truth value.
    pub value: Boxed<Formula>,
    /// Holds exactly where the evaluation gives a truth value.
    pub fine: Boxed<Formula>,
    /// Holds exactly where the evaluation stays within the scopes, and gives nothing but a truth value.
    pub inside: Boxed<Formula>,
}
