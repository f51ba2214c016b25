//! Sets of values, as far as formulas look at them.

ghost use Rattle.std.specs.Prelude.{◌≡◌, ◌<◌, ◌&&◌, ℕ};
ghost use Rattle.std.specs.List.{list_any};
ghost use Rattle.heap_core.specs.declared.value.Value.TheVariants.{Obj};
ghost use Rattle.heap_core.specs.Closure.{closure, widened as widened_lem};
ghost use Rattle.heap_core.specs.Outcomes.{is_null, is_object};
ghost use Rattle.rel_core.specs.Reading.{numbers_below};
ghost use Rattle.rel_core.specs.Meaning.{ValueSet, leads as leads_lem, joined as joined_lem, objects_only, reached_from, set_of};
ghost use Rattle.rel_core.specs.Views.{read, is_marked, AreMembers};

use crate::holds::members::Members;
use crate::holds::triples::has;
use crate::holds::view::View;
use crate::relation::RelVar;
use crate::sets::RelExpr;
use heap_core::Value;

/// Null alone.
fn null_alone(view: View<'_>) -> Members
    ensures { AreMembers (read view.entry) is_null result }
{
    let _objects = view.objects;
    Members {
        null: true,
        objects: [false; 12],
    }
}

/// The object of this number alone.
fn object_alone(view: View<'_>, object: u8) -> Members
    ensures { AreMembers (read view.entry) (is_object object) result }
{
    let mut objects = [false; 12];
    if object < view.objects {
        objects[usize::from(object)] = true;
    }
    Members {
        null: false,
        objects,
    }
}

/// The references of a relation at place 0.
fn references_of(view: View<'_>, relation: RelVar) -> Members
    ensures { AreMembers (read view.entry) ((read view.entry).refs relation 0) result }
{
    let mut objects = [false; 12];
    for object in 0..view.objects {
        objects[usize::from(object)] = has(view, relation, 0, Value::Obj(object));
    }
    Members {
        null: has(view, relation, 0, Value::Null),
        objects,
    }
}

/// Whether the relation has the value at a marked object.
#[tactic(auto, using(crate::proofs::MarkedSets::range_step))]
fn is_joined(view: View<'_>, marks: &[bool; 12], relation: RelVar, value: Value) -> bool
    ensures { result ≡ list_any (λ o. is_marked marks.now o && (read view.entry).refs relation o value) (numbers_below view.entry.objects) }
{
    for object in 0..view.objects {
        if marks[usize::from(object)] && has(view, relation, object, value) {
            return true;
        }
    }
    false
}

/// What a relation has at the objects of a set.
fn joined(view: View<'_>, from: &Members, relation: RelVar) -> Members
    ensures { (s : ValueSet) → AreMembers (read view.entry) s from.now → AreMembers (read view.entry) (joined_lem (read view.entry) s relation) result }
{
    let mut objects = [false; 12];
    for object in 0..view.objects {
        objects[usize::from(object)] = is_joined(view, &from.objects, relation, Value::Obj(object));
    }
    Members {
        null: is_joined(view, &from.objects, relation, Value::Null),
        objects,
    }
}

/// Whether one of the relations leads from an object to another.
fn leads(view: View<'_>, relations: &[RelVar], from: u8, to: u8) -> bool
    ensures { result ≡ leads_lem (read view.entry) relations.now from to }
{
    for relation in relations {
        if has(view, *relation, from, Value::Obj(to)) {
            return true;
        }
    }
    false
}

/// Whether one of the relations leads to the object from a marked one.
#[tactic(auto, using(crate::proofs::MarkedSets::range_step))]
fn is_led_to(view: View<'_>, relations: &[RelVar], marks: &[bool; 12], to: u8) -> bool
    ensures { result ≡ list_any (λ o. is_marked marks.now o && leads_lem (read view.entry) relations.now o to) (numbers_below view.entry.objects) }
{
    for object in 0..view.objects {
        if marks[usize::from(object)] && leads(view, relations, object, to) {
            return true;
        }
    }
    false
}

/// The marked objects, with those to which a relation leads from them.
fn widened(view: View<'_>, relations: &[RelVar], marks: &[bool; 12]) -> [bool; 12]
    ensures { (o : ℕ) → o < view.entry.objects
        → is_marked result o ≡ widened_lem (leads_lem (read view.entry) relations.now) view.entry.objects (is_marked marks.now) o }
{
    let mut wider = [false; 12];
    for object in 0..view.objects {
        let place = usize::from(object);
        wider[place] = marks[place] || is_led_to(view, relations, marks, object);
    }
    wider
}

/// The objects that are reached from the marked ones: as many rounds as there are objects reach all.
fn closed(view: View<'_>, relations: &[RelVar], begin: [bool; 12]) -> [bool; 12]
    ensures { (o : ℕ) → o < view.entry.objects
        → is_marked result o ≡ closure (leads_lem (read view.entry) relations.now) view.entry.objects (is_marked begin) o }
{
    let mut marks = begin;
    for _round in 0..view.objects {
        marks = widened(view, relations, &marks);
    }
    marks
}

/// The objects that are reached from those of a set.
fn reached(view: View<'_>, relations: &[RelVar], from: &Members) -> Members
    ensures { (s : ValueSet) → AreMembers (read view.entry) s from.now
        → AreMembers (read view.entry) (objects_only (reached_from (read view.entry) relations.now s)) result }
{
    let objects = closed(view, relations, from.objects);
    Members {
        null: false,
        objects,
    }
}

/// The members of a set.
pub(super) fn members(set: &RelExpr, view: View<'_>) -> Members
    ensures { AreMembers (read view.entry) (set_of set.now (read view.entry)) result }
{
    match set {
        RelExpr::Var(relation) => references_of(view, *relation),
        RelExpr::Nil => null_alone(view),
        RelExpr::Object(object) => object_alone(view, *object),
        RelExpr::Join(from, relation) => joined(view, &members(from.get(), view), *relation),
        RelExpr::Reach(from, relations) => {
            reached(view, relations.as_slice(), &members(from.get(), view))
        }
    }
}
