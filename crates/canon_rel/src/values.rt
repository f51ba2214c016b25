//! What formulas say of the references at one place: null alone, one object, or nothing.

ghost use Rattle.std.specs.Prelude.{◌≡◌, ◌<◌, nat_lt, IfOk, IsTrue};
ghost use Rattle.heap_core.specs.Posed.{Posed};
ghost use Rattle.rel_core.specs.Reading.{Reading};
ghost use Rattle.heap_core.specs.Outcomes.{is_null};
ghost use Rattle.rel_core.specs.Meaning.{holds, is_subset};
ghost use Rattle.rel_core.specs.Uses.{Kinds, is_sorted};
ghost use Rattle.canon_rel.specs.Places.{refs_at, is_within, is_sorted_place};
ghost use Rattle.canon_rel.specs.Shape.{is_null_alone as is_null_alone_lem, is_one_object as is_one_object_lem, is_one_value as is_one_value_lem};
ghost use Rattle.canon_rel.specs.Shape.{is_nothing as is_nothing_lem, is_declared_value as is_declared_value_lem};

use crate::objects::is_of;
use crate::places::Place;
use no_memory::NoMemory;
use rel_core::{Formula, Indices, RelExpr};
use sqlite_items::Boxed;
use std::alloc::Global;

/// No value is at the place but null.
fn no_object(alloc: Global, place: Place) -> Result<Boxed<Formula>, NoMemory>
    ensures meaning { IfOk result (λ f. (m : Reading) → IsTrue (is_within m.objects place) → holds f m ≡ is_subset m (refs_at m place) is_null) }
    ensures sorted { IfOk result (λ f. (p : Posed) (kinds : Kinds) → IsTrue (is_sorted_place p kinds place) → IsTrue (is_sorted p kinds f)) }
{
    let set = place.set(alloc)?;
    let nil = RelExpr::nil(alloc)?;
    let none = Formula::subset(alloc, set, nil)?;
    Ok(none)
}

/// Null is at the place.
fn has_null(alloc: Global, place: Place) -> Result<Boxed<Formula>, NoMemory>
    ensures meaning { IfOk result (λ f. (m : Reading) → IsTrue (is_within m.objects place) → holds f m ≡ is_subset m is_null (refs_at m place)) }
    ensures sorted { IfOk result (λ f. (p : Posed) (kinds : Kinds) → IsTrue (is_sorted_place p kinds place) → IsTrue (is_sorted p kinds f)) }
{
    let nil = RelExpr::nil(alloc)?;
    let set = place.set(alloc)?;
    let null = Formula::subset(alloc, nil, set)?;
    Ok(null)
}

/// Null is at the place and nothing else.
fn is_null_alone(alloc: Global, place: Place) -> Result<Boxed<Formula>, NoMemory>
    ensures meaning { IfOk result (λ f. (m : Reading) → IsTrue (is_within m.objects place) → holds f m ≡ is_null_alone_lem m (refs_at m place)) }
    ensures sorted { IfOk result (λ f. (p : Posed) (kinds : Kinds) → IsTrue (is_sorted_place p kinds place) → IsTrue (is_sorted p kinds f)) }
{
    let no_object = no_object(alloc, place)?;
    let null = has_null(alloc, place)?;
    let alone = Formula::both(alloc, no_object, null)?;
    Ok(alone)
}

/// Nothing is at the place.
fn is_nothing(alloc: Global, place: Place) -> Result<Boxed<Formula>, NoMemory>
    ensures meaning { IfOk result (λ f. (m : Reading) → IsTrue (is_within m.objects place) → holds f m ≡ is_nothing_lem m (refs_at m place)) }
    ensures sorted { IfOk result (λ f. (p : Posed) (kinds : Kinds) → IsTrue (is_sorted_place p kinds place) → IsTrue (is_sorted p kinds f)) }
{
    let no_object = no_object(alloc, place)?;
    let null = has_null(alloc, place)?;
    let no_null = Formula::not(alloc, null)?;
    let nothing = Formula::both(alloc, no_object, no_null)?;
    Ok(nothing)
}

/// One object is at the place, which is there and of the class, and nothing else.
pub(crate) fn is_one_object(
    alloc: Global,
    at: &Indices,
    place: Place,
    class: u8,
) -> Result<Boxed<Formula>, NoMemory>
    ensures meaning { IfOk result (λ f. (m : Reading) → IsTrue (is_within m.objects place) → holds f m ≡ is_one_object_lem m at.now class (refs_at m place)) }
    ensures sorted { IfOk result (λ f. (p : Posed) (kinds : Kinds) → IsTrue (is_sorted_place p kinds place) → IsTrue (is_sorted p kinds f)) }
{
    let set = place.set(alloc)?;
    let live = Formula::flag_at(alloc, set, at.live())?;
    let set = place.set(alloc)?;
    let class = Formula::is_class(alloc, set, class, at.class())?;
    let object = Formula::both(alloc, live, class)?;
    let null = has_null(alloc, place)?;
    let no_null = Formula::not(alloc, null)?;
    let alone = Formula::both(alloc, object, no_null)?;
    Ok(alone)
}

/// Null alone is at the place, or one object of the class.
pub(crate) fn is_one_value(
    alloc: Global,
    at: &Indices,
    place: Place,
    class: u8,
) -> Result<Boxed<Formula>, NoMemory>
    ensures meaning { IfOk result (λ f. (m : Reading) → IsTrue (is_within m.objects place) → holds f m ≡ is_one_value_lem m at.now class (refs_at m place)) }
    ensures sorted { IfOk result (λ f. (p : Posed) (kinds : Kinds) → IsTrue (is_sorted_place p kinds place) → IsTrue (is_sorted p kinds f)) }
{
    let null = is_null_alone(alloc, place)?;
    let object = is_one_object(alloc, at, place, class)?;
    let value = Formula::either(alloc, null, object)?;
    Ok(value)
}

/// Where the object is there and of the class `owner`, the place has one value of the class, and else
/// nothing.
pub(crate) fn is_declared_value(
    alloc: Global,
    at: &Indices,
    object: u8,
    owner: u8,
    place: Place,
    class: u8,
) -> Result<Boxed<Formula>, NoMemory>
    ensures meaning { IfOk result (λ f. (m : Reading) → object < m.objects → IsTrue (is_within m.objects place) → holds f m ≡ is_declared_value_lem at.now m owner object class (refs_at m place)) }
    ensures sorted { IfOk result (λ f. (p : Posed) (kinds : Kinds) → IsTrue (nat_lt object p.scope.objects) → IsTrue (is_sorted_place p kinds place) → IsTrue (is_sorted p kinds f)) }
{
    let own = is_of(alloc, at, object, owner)?;
    let value = is_one_value(alloc, at, place, class)?;
    let where_own = Formula::implies(alloc, own, value)?;
    let own = is_of(alloc, at, object, owner)?;
    let nothing = is_nothing(alloc, place)?;
    let elsewhere = Formula::either(alloc, own, nothing)?;
    let both = Formula::both(alloc, where_own, elsewhere)?;
    Ok(both)
}
