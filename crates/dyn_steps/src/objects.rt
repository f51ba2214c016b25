//! Which objects are there, and which is the next.

ghost use Rattle.std.specs.Prelude.{◌≡◌, ◌≤◌, ◌-◌, ◌||◌, not, ◌==◌, IfOk, IsTrue, nat_lt};
ghost use Rattle.std.specs.List.{list_all};
ghost use Rattle.heap_core.specs.Outcomes.{is_object};
ghost use Rattle.heap_core.specs.Posed.{Posed};
ghost use Rattle.rel_core.specs.Reading.{Reading, numbers_below};
ghost use Rattle.rel_core.specs.Meaning.{holds};
ghost use Rattle.rel_core.specs.Uses.{Kinds, AsFlag, AsSet, is_sorted, is_spread, is_variable};
ghost use Rattle.dyn_steps.specs.Meanings.{there, is_next as is_next_lem, is_placed as is_placed_lem, same_sets};

use no_memory::NoMemory;
use rel_core::{Formula, RelExpr, RelVar};
use sqlite_items::{Boxed, Items};
use std::alloc::Global;

/// The flag of a relation at an object.
pub(crate) fn is_there(alloc: Global, live: RelVar, object: u8) -> Result<Boxed<Formula>, NoMemory>
    ensures meaning { IfOk result (λ r. (m : Reading) → holds r m ≡ there m live object) }
    ensures sorted { IfOk result (λ r. (p : Posed) (kinds : Kinds) → IsTrue (nat_lt object p.scope.objects) → IsTrue (is_spread p kinds AsFlag live) → IsTrue (is_sorted p kinds r)) }
{
    let set = RelExpr::object(alloc, object)?;
    let flag = Formula::flag_at(alloc, set, live)?;
    Ok(flag)
}

/// The flag of a relation at an object is false.
pub(crate) fn is_not_there(
    alloc: Global,
    live: RelVar,
    object: u8,
) -> Result<Boxed<Formula>, NoMemory>
    ensures meaning { IfOk result (λ r. (m : Reading) → holds r m ≡ not (there m live object)) }
    ensures sorted { IfOk result (λ r. (p : Posed) (kinds : Kinds) → IsTrue (nat_lt object p.scope.objects) → IsTrue (is_spread p kinds AsFlag live) → IsTrue (is_sorted p kinds r)) }
{
    let flag = is_there(alloc, live, object)?;
    let opposite = Formula::not(alloc, flag)?;
    Ok(opposite)
}

/// An object is the first, or the one before it is there.
fn follows(alloc: Global, live: RelVar, object: u8) -> Result<Boxed<Formula>, NoMemory>
    ensures meaning { IfOk result (λ r. (m : Reading) → holds r m ≡ (object == 0 || there m live (object - 1))) }
    ensures sorted { IfOk result (λ r. (p : Posed) (kinds : Kinds) → IsTrue (nat_lt object p.scope.objects) → IsTrue (is_spread p kinds AsFlag live) → IsTrue (is_sorted p kinds r)) }
{
    if object == 0 {
        let always = Formula::constant(alloc, true)?;
        Ok(always)
    } else {
        let flag = is_there(alloc, live, object - 1)?;
        Ok(flag)
    }
}

/// An object is not there, and the one before it is.
fn is_next(alloc: Global, live: RelVar, object: u8) -> Result<Boxed<Formula>, NoMemory>
    ensures meaning { IfOk result (λ r. (m : Reading) → holds r m ≡ is_next_lem m live object) }
    ensures sorted { IfOk result (λ r. (p : Posed) (kinds : Kinds) → IsTrue (nat_lt object p.scope.objects) → IsTrue (is_spread p kinds AsFlag live) → IsTrue (is_sorted p kinds r)) }
{
    let free = is_not_there(alloc, live, object)?;
    let before = follows(alloc, live, object)?;
    let both = Formula::both(alloc, free, before)?;
    Ok(both)
}

/// A variable is this object.
fn is_the_object(alloc: Global, variable: RelVar, object: u8) -> Result<Boxed<Formula>, NoMemory>
    ensures meaning { IfOk result (λ r. (m : Reading) → holds r m ≡ same_sets m (m.refs variable 0) (is_object object)) }
    ensures sorted { IfOk result (λ r. (p : Posed) (kinds : Kinds) → IsTrue (nat_lt object p.scope.objects) → IsTrue (is_variable p kinds AsSet variable) → IsTrue (is_sorted p kinds r)) }
{
    let inner = RelExpr::variable(alloc, variable)?;
    let outer = RelExpr::object(alloc, object)?;
    let within = Formula::subset(alloc, inner, outer)?;
    let inner = RelExpr::object(alloc, object)?;
    let outer = RelExpr::variable(alloc, variable)?;
    let around = Formula::subset(alloc, inner, outer)?;
    let same = Formula::both(alloc, within, around)?;
    Ok(same)
}

/// A variable is this object, where that is the next.
fn is_placed(
    alloc: Global,
    variable: RelVar,
    live: RelVar,
    object: u8,
) -> Result<Boxed<Formula>, NoMemory>
    ensures meaning { IfOk result (λ r. (m : Reading) → holds r m ≡ is_placed_lem m variable live object) }
    ensures sorted { IfOk result (λ r. (p : Posed) (kinds : Kinds) → IsTrue (nat_lt object p.scope.objects)
        → IsTrue (is_variable p kinds AsSet variable) → IsTrue (is_spread p kinds AsFlag live)
        → IsTrue (is_sorted p kinds r)) }
{
    let next = is_next(alloc, live, object)?;
    let is = is_the_object(alloc, variable, object)?;
    let placed = Formula::implies(alloc, next, is)?;
    Ok(placed)
}

/// A variable is the next of so many objects, where there is one.
pub(crate) fn all_placed(
    alloc: Global,
    variable: RelVar,
    live: RelVar,
    objects: u8,
) -> Result<Boxed<Formula>, NoMemory>
    ensures meaning { IfOk result (λ r. (m : Reading) → holds r m ≡ list_all (is_placed_lem m variable live) (numbers_below objects)) }
    ensures sorted { IfOk result (λ r. (p : Posed) (kinds : Kinds) → objects ≤ p.scope.objects
        → IsTrue (is_variable p kinds AsSet variable) → IsTrue (is_spread p kinds AsFlag live)
        → IsTrue (is_sorted p kinds r)) }
{
    let mut parts = Items::from_vec(Vec::with_capacity(alloc, usize::from(objects))?);
    for object in 0..objects {
        let placed = is_placed(alloc, variable, live, object)?;
        parts.push(placed.into_inner())?;
    }
    let all = Formula::all(alloc, parts)?;
    Ok(all)
}

/// There is room for one more object: the last of so many is not there.
pub(crate) fn has_room(alloc: Global, live: RelVar, objects: u8) -> Result<Boxed<Formula>, NoMemory>
    ensures meaning { IfOk result (λ r. (m : Reading) → holds r m ≡ not (there m live (objects - 1))) }
    ensures sorted { IfOk result (λ r. (p : Posed) (kinds : Kinds) → IsTrue (nat_lt (objects - 1) p.scope.objects) → IsTrue (is_spread p kinds AsFlag live) → IsTrue (is_sorted p kinds r)) }
{
    let free = is_not_there(alloc, live, objects.saturating_sub(1))?;
    Ok(free)
}
