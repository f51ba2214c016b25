//! Laws of the definitions: what the numbering of a heap's objects does not change.
//!
//! Each law is the contract of a function with an empty body, so that crates above can cite it.
#![tactic(auto)]

ghost use Rattle.heap_symmetry.specs.Laws.{RenumberingKeeps, CanonicalByVisit, OneIsCanonical, CanonicalStartsDecide, TuplesArePossible};

/// A start that fits, renumbered by any list that holds each object once, fits; its heap is good
/// exactly where the old one is, and its judgement is of the same kind.
pub fn renumbering_keeps_the_judgement()
    ensures { RenumberingKeeps }
{}

/// A start that fits, renumbered by a list that holds each object once, is canonical exactly where the
/// list is its visit.
pub fn canonical_by_the_visit_alone()
    ensures { CanonicalByVisit }
{}

/// A start that fits has exactly one canonical renumbering: that by its visit.
pub fn one_renumbering_is_canonical()
    ensures { OneIsCanonical }
{}

/// A method is violable exactly where a canonical start breaks its contract.
pub fn canonical_starts_decide()
    ensures { CanonicalStartsDecide }
{}

/// A tuple of a start that fits and whose heap is good is possible, under the numbers of the visit.
pub fn tuples_of_good_starts_are_possible()
    ensures { TuplesArePossible }
{}
