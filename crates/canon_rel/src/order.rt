//! Objects in order: each is at one of the places below it, and the object before it comes first there.

ghost use Rattle.std.specs.Prelude.{◌≡◌, ◌<◌, not, IfOk, IsTrue};
ghost use Rattle.std.specs.List.{list_any};
ghost use Rattle.heap_core.specs.Posed.{Posed};
ghost use Rattle.rel_core.specs.Reading.{Reading};
ghost use Rattle.rel_core.specs.Meaning.{holds};
ghost use Rattle.rel_core.specs.Uses.{Kinds, GivesStart, is_sorted};
ghost use Rattle.canon_rel.specs.Places.{are_within, are_sorted, is_named};
ghost use Rattle.canon_rel.specs.Order.{has_at, comes_before as comes_before_lem, follows as follows_lem, follows_if_there, is_in_order as is_in_order_lem};

use crate::objects::is_live;
use crate::places::Place;
use crate::places_below::{push_fields, root_places};
use crate::problems::object_count;
use heap_core::Problem;
use no_memory::NoMemory;
use rel_core::{Formula, Indices};
use sqlite_items::{Boxed, Items};
use std::alloc::Global;

/// The object is at some of the places.
fn is_held(alloc: Global, places: &[Place], object: u8) -> Result<Boxed<Formula>, NoMemory>
    ensures meaning { IfOk result (λ f. (m : Reading) → IsTrue (are_within m.objects places.now) → object < m.objects → holds f m ≡ list_any (has_at m object) places.now) }
    ensures sorted { IfOk result (λ f. (p : Posed) (kinds : Kinds) → IsTrue (are_sorted p kinds places.now) → IsTrue (is_named p object) → IsTrue (is_sorted p kinds f)) }
{
    let mut parts = Items::new(alloc);
    for place in places {
        let part = place.has_object(alloc, object)?;
        parts.push(part.into_inner())?;
    }
    let some = Formula::any(alloc, parts)?;
    Ok(some)
}

/// The first of the places that has object `first` comes before the first that has object `second`. It
/// goes along the places: `second` is not here, and `first` is, or comes before `second` behind.
fn comes_before(
    alloc: Global,
    places: &[Place],
    first: u8,
    second: u8,
) -> Result<Boxed<Formula>, NoMemory>
    ensures meaning { IfOk result (λ f. (m : Reading) → IsTrue (are_within m.objects places.now) → first < m.objects → second < m.objects → holds f m ≡ comes_before_lem m places.now first second) }
    ensures sorted { IfOk result (λ f. (p : Posed) (kinds : Kinds) → IsTrue (are_sorted p kinds places.now) → IsTrue (is_named p first) → IsTrue (is_named p second) → IsTrue (is_sorted p kinds f)) }
{
    match places {
        [] => {
            let never = Formula::constant(alloc, false)?;
            Ok(never)
        }
        [place, rest @ ..] => {
            let later = comes_before(alloc, rest, first, second)?;
            let here = place.has_object(alloc, first)?;
            let met = Formula::either(alloc, here, later)?;
            let passed = place.has_object(alloc, second)?;
            let not_yet = Formula::not(alloc, passed)?;
            let before = Formula::both(alloc, not_yet, met)?;
            Ok(before)
        }
    }
}

/// The object is at some of the places, and the object before it, where there is one, comes first there.
fn follows(alloc: Global, places: &[Place], object: u8) -> Result<Boxed<Formula>, NoMemory>
    ensures meaning { IfOk result (λ f. (m : Reading) → IsTrue (are_within m.objects places.now) → object < m.objects → holds f m ≡ follows_lem m places.now object) }
    ensures sorted { IfOk result (λ f. (p : Posed) (kinds : Kinds) → IsTrue (are_sorted p kinds places.now) → IsTrue (is_named p object) → IsTrue (is_sorted p kinds f)) }
{
    if object == 0 {
        let held = is_held(alloc, places, object)?;
        return Ok(held);
    }
    let held = is_held(alloc, places, object)?;
    let before = comes_before(alloc, places, object - 1, object)?;
    let follows = Formula::both(alloc, held, before)?;
    Ok(follows)
}

/// So it is, where the object is there.
fn follows_where_live(
    alloc: Global,
    at: &Indices,
    places: &[Place],
    object: u8,
) -> Result<Boxed<Formula>, NoMemory>
    ensures meaning { IfOk result (λ f. (m : Reading) → IsTrue (are_within m.objects places.now) → object < m.objects → holds f m ≡ follows_if_there at.now m places.now object) }
    ensures sorted { IfOk result (λ f. (p : Posed) (kinds : Kinds) → IsTrue (are_sorted p kinds places.now) → IsTrue (is_named p object) → IsTrue (is_sorted p kinds f)) }
{
    let live = is_live(alloc, at, object)?;
    let follows = follows(alloc, places, object)?;
    let part = Formula::implies(alloc, live, follows)?;
    Ok(part)
}

/// Each object that is there follows the one before it.
pub(crate) fn is_in_order(
    alloc: Global,
    problem: &Problem,
    at: &Indices,
) -> Result<Boxed<Formula>, NoMemory>
    ensures meaning { IfOk result (λ f. (m : Reading) → m.objects ≡ problem.now.scope.objects → holds f m ≡ is_in_order_lem problem.now at.now m) }
    ensures sorted { IfOk result (λ f. (kinds : Kinds) → GivesStart problem.now kinds → IsTrue (is_sorted problem.now kinds f)) }
{
    let count = object_count(problem);
    let mut places = root_places(alloc, problem, at)?;
    let mut parts = Items::new(alloc);
    for object in 0..count {
        let part = follows_where_live(alloc, at, places.as_slice(), object)?;
        parts.push(part.into_inner())?;
        push_fields(&mut places, problem, at, object)?;
    }
    let all = Formula::all(alloc, parts)?;
    Ok(all)
}
