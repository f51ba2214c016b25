//! Formulas under a valuation.

ghost use Rattle.std.specs.Prelude.{◌≡◌, false, int_lt};
ghost use Rattle.std.specs.Ordering.{int_eq};
ghost use Rattle.std.specs.List.{list_all, list_any};
ghost use Rattle.std.specs.Option.{option_map_or};
ghost use Rattle.rel_core.specs.Meaning.{with_both, only_object as only_object_lem, holds as holds_lem};
ghost use Rattle.rel_core.specs.Views.{read, kept_set};

use crate::formula::Formula;
use crate::holds::members::Members;
use crate::holds::numbers::number_of;
use crate::holds::objects::{are_of, is_changed, is_subset, only_object};
use crate::holds::sets::members;
use crate::holds::triples::flag_at;
use crate::holds::view::View;
use crate::relation::RelVar;

/// The truth value of a relation at the only object of a set, and false where the set has not exactly one.
fn at_only(view: View<'_>, set: &Members, relation: RelVar) -> bool
    ensures { result ≡ option_map_or ((read view.entry).flag relation) (only_object_lem (read view.entry) (kept_set set.now)) false }
{
    match only_object(view, set) {
        Some(object) => flag_at(view, relation, object),
        None => false,
    }
}

fn are_same(a: Option<i32>, b: Option<i32>) -> bool
    ensures { result ≡ with_both a b int_eq false }
{
    match (a, b) {
        (Some(x), Some(y)) => x == y,
        _ => false,
    }
}

fn is_below(a: Option<i32>, b: Option<i32>) -> bool
    ensures { result ≡ with_both a b int_lt false }
{
    match (a, b) {
        (Some(x), Some(y)) => x < y,
        _ => false,
    }
}

/// Whether all of these formulas hold.
#[cycle(truth)]
fn all_hold(parts: &[Formula], view: View<'_>) -> bool
    ensures { result ≡ list_all (λ p. holds_lem p (read view.entry)) parts.now }
{
    for part in parts {
        if !is_true(part, view) {
            return false;
        }
    }
    true
}

/// Whether one of these formulas holds.
#[cycle(truth)]
fn some_holds(parts: &[Formula], view: View<'_>) -> bool
    ensures { result ≡ list_any (λ p. holds_lem p (read view.entry)) parts.now }
{
    for part in parts {
        if is_true(part, view) {
            return true;
        }
    }
    false
}

/// Whether the formula holds.
#[cycle(truth)]
pub(super) fn is_true(formula: &Formula, view: View<'_>) -> bool
    ensures { result ≡ holds_lem formula.now (read view.entry) }
{
    match formula {
        Formula::Const(truth) => *truth,
        Formula::Flag(variable) => flag_at(view, *variable, 0),
        Formula::FlagAt(set, relation) => at_only(view, &members(set.get(), view), *relation),
        Formula::Subset(a, b) => is_subset(view, &members(a.get(), view), &members(b.get(), view)),
        Formula::IsClass(set, class, relation) => {
            are_of(view, &members(set.get(), view), *class, *relation)
        }
        Formula::SameNum(a, b) => are_same(number_of(a.get(), view), number_of(b.get(), view)),
        Formula::BelowNum(a, b) => is_below(number_of(a.get(), view), number_of(b.get(), view)),
        Formula::Fits(a) => number_of(a.get(), view).is_some(),
        Formula::Changed(new, set, given, old) => {
            is_changed(view, *new, &members(set.get(), view), *given, *old)
        }
        Formula::Not(p) => !is_true(p.get(), view),
        Formula::And(parts) => all_hold(parts.as_slice(), view),
        Formula::Or(parts) => some_holds(parts.as_slice(), view),
        Formula::Same(p, q) => is_true(p.get(), view) == is_true(q.get(), view),
    }
}
