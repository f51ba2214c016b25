//! What is seen of a valuation's triples: references, numbers and truth values, each at its place.

ghost use Rattle.std.specs.Prelude.{◌≡◌, ◌&&◌};
ghost use Rattle.std.specs.List.{list_any};
ghost use Rattle.heap_core.specs.Outcomes.{is_value as is_value_lem};
ghost use Rattle.rel_core.specs.Reading.{same_what as same_what_lem, is_at as is_at_lem, is_reference as is_reference_lem, first_number as first_number_lem, first_flag as first_flag_lem};
ghost use Rattle.rel_core.specs.Views.{read};

use crate::holds::view::View;
use crate::relation::{RelVar, What};
use heap_core::Value;

fn same_what(a: What, b: What) -> bool
    ensures { result ≡ same_what_lem a b }
{
    match (a, b) {
        (What::Live, What::Live) | (What::ClassOf, What::ClassOf) => true,
        (What::Field(f), What::Field(g)) => f == g,
        (What::Slot(x), What::Slot(y)) => x == y,
        _ => false,
    }
}

/// Whether the triple is of this relation at this place.
fn is_at(relation: RelVar, place: u8, triple: (RelVar, u8, Value)) -> bool
    ensures { result ≡ is_at_lem relation place triple }
{
    same_what(triple.0.what, relation.what) && triple.0.index == relation.index && triple.1 == place
}

/// Whether two values are one.
fn is_value(a: Value, b: Value) -> bool
    ensures { result ≡ is_value_lem a b }
{
    match (a, b) {
        (Value::Null, Value::Null) => true,
        (Value::Obj(o), Value::Obj(p)) => o == p,
        (Value::Num(x), Value::Num(y)) => x == y,
        (Value::Flag(x), Value::Flag(y)) => x == y,
        _ => false,
    }
}

/// Whether the value is null or one of so many objects.
fn is_reference(objects: u8, value: Value) -> bool
    ensures { result ≡ is_reference_lem objects value }
{
    match value {
        Value::Null => true,
        Value::Obj(object) => object < objects,
        _ => false,
    }
}

/// Whether some triple gives this value of the relation at the place.
fn is_given(pairs: &[(RelVar, u8, Value)], relation: RelVar, place: u8, value: Value) -> bool
    ensures { result ≡ list_any (λ t. is_at_lem relation place t && is_value_lem t.2 value) pairs.now }
{
    for triple in pairs {
        if is_at(relation, place, *triple) && is_value(triple.2, value) {
            return true;
        }
    }
    false
}

fn first_number(pairs: &[(RelVar, u8, Value)], relation: RelVar, place: u8) -> i32
    ensures { result ≡ first_number_lem relation place pairs.now }
{
    for triple in pairs {
        if is_at(relation, place, *triple)
            && let Value::Num(number) = triple.2
        {
            return number;
        }
    }
    0
}

fn first_flag(pairs: &[(RelVar, u8, Value)], relation: RelVar, place: u8) -> bool
    ensures { result ≡ first_flag_lem relation place pairs.now }
{
    for triple in pairs {
        if is_at(relation, place, *triple)
            && let Value::Flag(truth) = triple.2
        {
            return truth;
        }
    }
    false
}

/// Whether the relation has this reference at the place.
pub(super) fn has(view: View<'_>, relation: RelVar, place: u8, value: Value) -> bool
    ensures { result ≡ (read view.entry).refs relation place value }
{
    place < view.objects
        && is_reference(view.objects, value)
        && is_given(view.pairs, relation, place, value)
}

/// The number of the relation at the place.
pub(super) fn number_at(view: View<'_>, relation: RelVar, place: u8) -> i32
    ensures { result ≡ (read view.entry).number relation place }
{
    if place < view.objects {
        first_number(view.pairs, relation, place)
    } else {
        0
    }
}

/// The truth value of the relation at the place.
pub(super) fn flag_at(view: View<'_>, relation: RelVar, place: u8) -> bool
    ensures { result ≡ (read view.entry).flag relation place }
{
    place < view.objects && first_flag(view.pairs, relation, place)
}
