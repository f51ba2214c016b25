//! The objects of a set: the only one, how many there are, and what is so of each.

ghost use Rattle.std.specs.Prelude.{◌≡◌, ◌||◌, not, count_by, if◌then◌else◌};
ghost use Rattle.std.specs.List.{list_all};
ghost use Rattle.heap_core.specs.declared.value.Value.TheVariants.{Obj};
ghost use Rattle.heap_core.specs.Outcomes.{same_flag};
ghost use Rattle.rel_core.specs.Reading.{numbers_below, references};
ghost use Rattle.rel_core.specs.Meaning.{has_object, only_object as only_object_lem, is_subset as is_subset_lem, are_of as are_of_lem, same_at as same_at_lem, is_changed as is_changed_lem};
ghost use Rattle.rel_core.specs.Views.{read, is_marked, kept_set};

use crate::holds::members::Members;
use crate::holds::triples::{flag_at, has, number_at};
use crate::holds::view::View;
use crate::relation::RelVar;
use heap_core::Value;

/// The only object of a set, where it has exactly one.
#[tactic(auto, using(crate::proofs::MarkedSets::range_step))]
pub(super) fn only_object(view: View<'_>, set: &Members) -> Option<u8>
    ensures { result ≡ only_object_lem (read view.entry) (kept_set set.now) }
{
    let mut found = None;
    for object in 0..view.objects {
        if set.objects[usize::from(object)] {
            if found.is_some() {
                return None;
            }
            found = Some(object);
        }
    }
    found
}

/// How many objects a set has.
#[tactic(auto, using(crate::proofs::MarkedSets::count_step))]
pub(super) fn count(view: View<'_>, set: &Members) -> u8
    ensures { result ≡ count_by (has_object (kept_set set.now)) (numbers_below view.entry.objects) }
{
    let mut count = 0;
    for object in 0..view.objects {
        if set.objects[usize::from(object)] {
            count += 1;
        }
    }
    count
}

/// Whether each object of the first set is in the second.
#[tactic(auto, using(crate::proofs::MarkedSets::range_step))]
fn are_within(view: View<'_>, part: &[bool; 12], whole: &[bool; 12]) -> bool
    ensures { result ≡ list_all (λ o. not (is_marked part.now o) || is_marked whole.now o) (numbers_below view.entry.objects) }
{
    for object in 0..view.objects {
        let place = usize::from(object);
        if part[place] && !whole[place] {
            return false;
        }
    }
    true
}

/// Whether each value of the first set is in the second.
#[tactic(auto, using(crate::proofs::MarkedSets::all_references))]
pub(super) fn is_subset(view: View<'_>, part: &Members, whole: &Members) -> bool
    ensures { result ≡ is_subset_lem (read view.entry) (kept_set part.now) (kept_set whole.now) }
{
    if part.null && !whole.null {
        return false;
    }
    are_within(view, &part.objects, &whole.objects)
}

/// Whether every object of the set has the class, by the relation.
#[tactic(auto, using(crate::proofs::MarkedSets::range_step))]
pub(super) fn are_of(view: View<'_>, set: &Members, class: u8, relation: RelVar) -> bool
    ensures { result ≡ are_of_lem (read view.entry) (kept_set set.now) class relation }
{
    for object in 0..view.objects {
        if set.objects[usize::from(object)]
            && number_at(view, relation, object) != i32::from(class)
        {
            return false;
        }
    }
    true
}

/// Whether two relations have the same objects, each at its place.
#[tactic(auto, using(crate::proofs::MarkedSets::range_step))]
fn same_objects(view: View<'_>, a: RelVar, at: u8, b: RelVar, there: u8) -> bool
    ensures { result ≡ list_all (λ o. same_flag ((read view.entry).refs a at (Obj o)) ((read view.entry).refs b there (Obj o))) (numbers_below view.entry.objects) }
{
    for object in 0..view.objects {
        let value = Value::Obj(object);
        if has(view, a, at, value) != has(view, b, there, value) {
            return false;
        }
    }
    true
}

/// Whether two relations have the same references, each at its place.
#[tactic(auto, using(crate::proofs::MarkedSets::all_references))]
fn same_references(view: View<'_>, a: RelVar, at: u8, b: RelVar, there: u8) -> bool
    ensures { result ≡ list_all (λ v. same_flag ((read view.entry).refs a at v) ((read view.entry).refs b there v)) (references view.entry.objects) }
{
    if has(view, a, at, Value::Null) != has(view, b, there, Value::Null) {
        return false;
    }
    same_objects(view, a, at, b, there)
}

/// Whether two relations have the same references, number and truth value, each at its place.
fn same_at(view: View<'_>, a: RelVar, at: u8, b: RelVar, there: u8) -> bool
    ensures { result ≡ same_at_lem (read view.entry) a at b there }
{
    same_references(view, a, at, b, there)
        && number_at(view, a, at) == number_at(view, b, there)
        && flag_at(view, a, at) == flag_at(view, b, there)
}

/// Whether a relation has at the object what `given` has at place 0, if the object is in the set, and else what
/// `old` has there.
fn is_changed_at(
    view: View<'_>,
    new: RelVar,
    object: u8,
    inside: bool,
    given: RelVar,
    old: RelVar,
) -> bool
    ensures { result ≡ (if inside then same_at_lem (read view.entry) new object given 0 else same_at_lem (read view.entry) new object old object) }
{
    if inside {
        same_at(view, new, object, given, 0)
    } else {
        same_at(view, new, object, old, object)
    }
}

/// Whether a relation has at each object of the set what `given` has at place 0, and else what `old` has.
#[tactic(auto, using(crate::proofs::MarkedSets::range_step))]
pub(super) fn is_changed(
    view: View<'_>,
    new: RelVar,
    set: &Members,
    given: RelVar,
    old: RelVar,
) -> bool
    ensures { result ≡ is_changed_lem (read view.entry) new (kept_set set.now) given old }
{
    for object in 0..view.objects {
        let inside = set.objects[usize::from(object)];
        if !is_changed_at(view, new, object, inside, given, old) {
            return false;
        }
    }
    true
}
