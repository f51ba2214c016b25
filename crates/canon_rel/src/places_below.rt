//! The places below an object: the roots, and the class-kind fields of the objects before it.

ghost use Rattle.std.specs.Prelude.{◌≡◌, ◌≤◌, ◌<◌, [], ◌∷◌, ◌++◌, if◌then◌else◌, IfOk, length};
ghost use Rattle.canonical_order.specs.Tuples.{is_root as is_root_lem, is_link as is_link_lem};
ghost use Rattle.rel_core.specs.Shown.{field_relation};
ghost use Rattle.canon_rel.specs.declared.places.Place.TheVariants as place;
ghost use Rattle.canon_rel.specs.Places.{root_variable as root_variable_lem, root_place, root_places as root_places_lem, field_places};

use crate::places::Place;
use crate::problems::field_count;
use canonical_order::{is_link, is_root};
use heap_core::{Problem, method_in};
use no_memory::NoMemory;
use rel_core::Indices;
use sqlite_items::Items;
use std::alloc::Global;
use taco_unit::MethodDef;

/// The variable of a root: of the receiver it is the one behind the parameters, and of a parameter its
/// own.
fn root_variable(method: &MethodDef, root: usize) -> u16
    requires few { length method.now.params ≤ 8 }
    requires small { root ≤ 8 }
    ensures { result ≡ root_variable_lem method.now root }
{
    if root == 0 {
        return method.params.len() as u16;
    }
    (root - 1) as u16
}

/// Puts the root behind the places, where it is one.
fn push_root(
    places: &mut Items<Place>,
    at: &Indices,
    method: &MethodDef,
    root: usize,
) -> Result<(), NoMemory>
    requires few { length method.now.params ≤ 8 }
    requires small { root ≤ 8 }
    ensures { IfOk result (λ u. places.new ≡ places.old ++ (if is_root_lem method.now root then root_place at.now method.now root ∷ [] else [])) }
{
    if !is_root(method, root) {
        return Ok(());
    }
    let relation = at.slot(root_variable(method, root));
    places.push(Place::Variable(relation))?;
    Ok(())
}

/// The roots: the receiver first, where there is one, and then the parameters of class kind.
pub(crate) fn root_places(
    alloc: Global,
    problem: &Problem,
    at: &Indices,
) -> Result<Items<Place>, NoMemory>
    ensures { IfOk result (λ places. places ≡ root_places_lem problem.now at.now) }
{
    let method = method_in(problem);
    let count = method.params.len() + 1;
    let mut places = Items::new(alloc);
    for root in 0..count {
        push_root(&mut places, at, method, root)?;
    }
    Ok(places)
}

/// Puts the field of an object behind the places, where it is of class kind.
fn push_field(
    places: &mut Items<Place>,
    problem: &Problem,
    at: &Indices,
    object: u8,
    field: u8,
) -> Result<(), NoMemory>
    ensures { IfOk result (λ u. places.new ≡ places.old ++ (if is_link_lem problem.now.unit field then place.Field (field_relation at.now field) object ∷ [] else [])) }
{
    if !is_link(&problem.unit, usize::from(field)) {
        return Ok(());
    }
    let relation = at.field(field);
    places.push(Place::Field(relation, object))?;
    Ok(())
}

/// Puts the class-kind fields of an object behind the places.
pub(crate) fn push_fields(
    places: &mut Items<Place>,
    problem: &Problem,
    at: &Indices,
    object: u8,
) -> Result<(), NoMemory>
    ensures { IfOk result (λ u. places.new ≡ places.old ++ field_places problem.now at.now object) }
{
    let count = field_count(problem);
    for field in 0..count {
        push_field(places, problem, at, object, field as u8)?;
    }
    Ok(())
}
