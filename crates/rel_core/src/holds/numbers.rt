//! Numbers under a valuation.

ghost use Rattle.std.specs.Prelude.{◌≡◌, ℤ, ◌+ℤ◌, ◌-ℤ◌, ◌*ℤ◌, Some, None, pos, count_by};
ghost use Rattle.std.specs.Option.{option_map_or};
ghost use Rattle.rel_core.specs.Reading.{numbers_below};
ghost use Rattle.rel_core.specs.Meaning.{fitting as fitting_lem, with_both, number_of as number_of_lem, only_object as only_object_lem, has_object};
ghost use Rattle.rel_core.specs.Views.{read, kept_set};

use crate::holds::members::Members;
use crate::holds::objects::{count, only_object};
use crate::holds::sets::members;
use crate::holds::triples::number_at;
use crate::holds::view::View;
use crate::numbers::NumExpr;
use crate::relation::RelVar;
use heap_core::{Seen, Value, number};

/// The number, where it lies in the width.
fn fitting(view: View<'_>, z: i64) -> Option<i32>
    ensures { result ≡ fitting_lem view.entry.ints z }
{
    match number(view.ints, z) {
        Seen::Is(Value::Num(x)) => Some(x),
        _ => None,
    }
}

fn sum(view: View<'_>, a: Option<i32>, b: Option<i32>) -> Option<i32>
    ensures { result ≡ with_both a b (λ x y. fitting_lem view.entry.ints (x +ℤ y)) None }
{
    match (a, b) {
        (Some(x), Some(y)) => fitting(view, i64::from(x) + i64::from(y)),
        _ => None,
    }
}

fn difference(view: View<'_>, a: Option<i32>, b: Option<i32>) -> Option<i32>
    ensures { result ≡ with_both a b (λ x y. fitting_lem view.entry.ints (x -ℤ y)) None }
{
    match (a, b) {
        (Some(x), Some(y)) => fitting(view, i64::from(x) - i64::from(y)),
        _ => None,
    }
}

fn product(view: View<'_>, a: Option<i32>, b: Option<i32>) -> Option<i32>
    ensures { result ≡ with_both a b (λ x y. fitting_lem view.entry.ints (x *ℤ y)) None }
{
    match (a, b) {
        (Some(x), Some(y)) => fitting(view, i64::from(x) * i64::from(y)),
        _ => None,
    }
}

/// The number of a relation at the only object of a set, and 0 where the set has not exactly one.
fn at_only(view: View<'_>, set: &Members, relation: RelVar) -> Option<i32>
    ensures { result ≡ Some (option_map_or ((read view.entry).number relation) (only_object_lem (read view.entry) (kept_set set.now)) (pos 0)) }
{
    match only_object(view, set) {
        Some(object) => Some(number_at(view, relation, object)),
        None => Some(0),
    }
}

/// How many objects a set has, where it lies in the width.
fn size(view: View<'_>, set: &Members) -> Option<i32>
    ensures { result ≡ fitting_lem view.entry.ints (pos (count_by (has_object (kept_set set.now)) (numbers_below view.entry.objects))) }
{
    fitting(view, i64::from(count(view, set)))
}

/// The number of an expression, where it has one.
pub(super) fn number_of(number: &NumExpr, view: View<'_>) -> Option<i32>
    ensures { result ≡ number_of_lem number.now (read view.entry) }
{
    match number {
        NumExpr::Const(z) => fitting(view, i64::from(*z)),
        NumExpr::Var(relation) => Some(number_at(view, *relation, 0)),
        NumExpr::At(set, relation) => at_only(view, &members(set.get(), view), *relation),
        NumExpr::Sum(a, b) => sum(view, number_of(a.get(), view), number_of(b.get(), view)),
        NumExpr::Diff(a, b) => difference(view, number_of(a.get(), view), number_of(b.get(), view)),
        NumExpr::Product(a, b) => product(view, number_of(a.get(), view), number_of(b.get(), view)),
        NumExpr::Count(set) => size(view, &members(set.get(), view)),
    }
}
