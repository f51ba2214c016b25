use heap_core::Problem;
use rel_core::{Indices, RelExpr, RelVar};
use sqlite_items::Boxed;
use taco_unit::Kind;

/// Where a clause is translated.
#[derive(Clone, Copy)]
pub(crate) struct Place<'a> {
    pub(crate) problem: &'a Problem,
    /// The present heap.
    pub(crate) heap: &'a Indices,
    /// The heap of the pre-state, and the parameters.
    pub(crate) before: &'a Indices,
    /// The result, where there is one.
    pub(crate) result: Option<(Kind, RelVar)>,
    /// The receiver, which the set has alone.
    pub(crate) this: &'a Boxed<RelExpr>,
    /// The objects of the quantified variables around, the outermost first.
    pub(crate) bound: &'a [u8],
}
