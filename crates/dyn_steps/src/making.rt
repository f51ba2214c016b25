//! The part of a new object.

ghost use Rattle.std.specs.Prelude.{◌≡◌, ◌+◌, ◌-◌, ◌&&◌, not, List, IfOk, IsTrue, nat_lt, Some, is_some, slice_get};
ghost use Rattle.std.specs.List.{list_all};
ghost use Rattle.std.specs.Option.{option_copied};
ghost use Rattle.heap_core.specs.Outcomes.{is_null, is_object};
ghost use Rattle.heap_core.specs.Posed.{Posed};
ghost use Rattle.taco_unit.specs.declared.kind.Kind.{Kind as TheKind};
ghost use Rattle.taco_unit.specs.declared.kind.Kind.TheVariants as kind;
ghost use Rattle.taco_unit.specs.declared.unit.ClassDef.{ClassDef as TheClass};
ghost use Rattle.dyn_core.specs.declared.prog.Act.TheVariants as acts;
ghost use Rattle.rel_core.specs.declared.relation.What.TheVariants as what;
ghost use Rattle.dyn_steps.specs.Points.{IsPoint, relation_at, slot as slot_lem};
ghost use Rattle.dyn_steps.specs.Looked.{Vars};
ghost use Rattle.dyn_steps.specs.Paths.{IsPath, IsStep};
ghost use Rattle.rel_core.specs.Reading.{Reading, numbers_below};
ghost use Rattle.rel_core.specs.Meaning.{are_of, holds, joined, set_of};
ghost use Rattle.rel_core.specs.Uses.{Kinds, AsClass, AsFlag, AsNumber, AsSet, is_sorted, is_sorted_set, is_spread, is_variable, use_of_kind};
ghost use Rattle.dyn_steps.specs.Meanings.{there, is_placed as is_placed_lem, is_first as is_first_lem, same_sets};
ghost use Rattle.dyn_steps.specs.Meanings.{is_grown, is_made, changes, field_kind, live_grown as live_grown_lem, class_grown as class_grown_lem, field_grown as field_grown_lem};

use crate::heap_steps::is_written;
use crate::objects::{all_placed, has_room, is_not_there, is_there};
use crate::part::{Basis, Front, Part};
use crate::point::with_new;
use crate::setting::{next_index, slot};
use heap_core::{Problem, well_posed};
use no_memory::NoMemory;
use rel_core::{Formula, NumExpr, RelExpr, RelVar, What};
use sqlite_items::{Boxed, Items, at};
use std::alloc::Global;
use taco_unit::{ClassDef, FieldDef, Kind};

/// A relation for numbers has 0 at place 0.
fn is_zero(alloc: Global, relation: RelVar) -> Result<Boxed<Formula>, NoMemory>
    ensures meaning { IfOk result (λ r. (m : Reading) → holds r m ≡ is_first_lem m kind.Int relation) }
    ensures sorted { IfOk result (λ r. (p : Posed) (kinds : Kinds) → IsTrue (nat_lt 0 p.scope.objects) → IsTrue (is_spread p kinds AsNumber relation) → IsTrue (is_sorted p kinds r)) }
{
    let place = RelExpr::object(alloc, 0)?;
    let number = NumExpr::at(alloc, place, relation)?;
    let zero = NumExpr::constant(alloc, 0)?;
    let same = Formula::same_number(alloc, number, zero)?;
    Ok(same)
}

/// The references of a relation at place 0.
fn first_references(alloc: Global, relation: RelVar) -> Result<Boxed<RelExpr>, NoMemory>
    ensures meaning { IfOk result (λ e. (m : Reading) → set_of e m ≡ joined m (is_object 0) relation) }
    ensures sorted { IfOk result (λ e. (p : Posed) (kinds : Kinds) → IsTrue (nat_lt 0 p.scope.objects) → IsTrue (is_spread p kinds AsSet relation) → IsTrue (is_sorted_set p kinds e)) }
{
    let place = RelExpr::object(alloc, 0)?;
    let references = RelExpr::join(alloc, place, relation)?;
    Ok(references)
}

/// A relation for references has null at place 0.
fn is_null_first(alloc: Global, relation: RelVar) -> Result<Boxed<Formula>, NoMemory>
    ensures meaning { IfOk result (λ r. (m : Reading) → holds r m ≡ same_sets m (joined m (is_object 0) relation) is_null) }
    ensures sorted { IfOk result (λ r. (p : Posed) (kinds : Kinds) → IsTrue (nat_lt 0 p.scope.objects) → IsTrue (is_spread p kinds AsSet relation) → IsTrue (is_sorted p kinds r)) }
{
    let inner = first_references(alloc, relation)?;
    let outer = RelExpr::nil(alloc)?;
    let within = Formula::subset(alloc, inner, outer)?;
    let inner = RelExpr::nil(alloc)?;
    let outer = first_references(alloc, relation)?;
    let around = Formula::subset(alloc, inner, outer)?;
    let same = Formula::both(alloc, within, around)?;
    Ok(same)
}

/// A relation has at place 0 the value with which fields of a kind begin.
fn is_first(alloc: Global, kind: Kind, relation: RelVar) -> Result<Boxed<Formula>, NoMemory>
    ensures meaning { IfOk result (λ r. (m : Reading) → holds r m ≡ is_first_lem m kind relation) }
    ensures sorted { IfOk result (λ r. (p : Posed) (kinds : Kinds) → IsTrue (nat_lt 0 p.scope.objects) → IsTrue (is_spread p kinds (use_of_kind kind) relation) → IsTrue (is_sorted p kinds r)) }
{
    match kind {
        Kind::Int => {
            let first = is_zero(alloc, relation)?;
            Ok(first)
        }
        Kind::Flag => {
            let first = is_not_there(alloc, relation, 0)?;
            Ok(first)
        }
        Kind::Ref(_) => {
            let first = is_null_first(alloc, relation)?;
            Ok(first)
        }
    }
}

/// The class of a new object, by a relation at place 0.
fn is_of_class(alloc: Global, class: u8, relation: RelVar) -> Result<Boxed<Formula>, NoMemory>
    ensures meaning { IfOk result (λ r. (m : Reading) → holds r m ≡ are_of m (is_object 0) class relation) }
    ensures sorted { IfOk result (λ r. (p : Posed) (kinds : Kinds) → IsTrue (nat_lt 0 p.scope.objects) → IsTrue (is_spread p kinds AsClass relation) → IsTrue (is_sorted p kinds r)) }
{
    let place = RelExpr::object(alloc, 0)?;
    let of = Formula::is_class(alloc, place, class, relation)?;
    Ok(of)
}

/// A relation at the index behind the next one, which has the values with which a new object begins.
fn given(what: What, from: &Front) -> Result<RelVar, NoMemory>
    ensures { IfOk result (λ r. r ≡ record { what = what; index = from.now.next + 1 }) }
{
    let index = next_index(from.next)?;
    Ok(RelVar { what, index })
}

/// A relation is at the next index what it was, but that at a new object it has what it is given.
fn grown(
    alloc: Global,
    from: &Front,
    variable: RelVar,
    what: What,
    old: u32,
) -> Result<Boxed<Formula>, NoMemory>
    ensures meaning { IfOk result (λ r. (m : Reading) → holds r m ≡ is_grown m variable what from.now.next old) }
    ensures sorted { IfOk result (λ r. (p : Posed) (kinds : Kinds) → IsTrue (is_variable p kinds AsSet variable) → IsTrue (changes p kinds what from.now.next old) → IsTrue (is_sorted p kinds r)) }
{
    let given = given(what, from)?;
    let new = RelVar {
        what,
        index: from.next,
    };
    let old = RelVar { what, index: old };
    let written = is_written(alloc, new, variable, given, old)?;
    Ok(written)
}

/// Which objects are there, with a new one.
fn live_grown(alloc: Global, from: &Front, variable: RelVar) -> Result<Boxed<Formula>, NoMemory>
    ensures meaning { IfOk result (λ r. (m : Reading) → holds r m ≡ live_grown_lem m from.now.at from.now.next variable) }
    ensures sorted { IfOk result (λ r. (p : Posed) (kinds : Kinds) → IsTrue (nat_lt 0 p.scope.objects) → IsTrue (is_variable p kinds AsSet variable) → IsTrue (is_sorted p kinds r)) }
{
    let given = given(What::Live, from)?;
    let there = is_there(alloc, given, 0)?;
    let grown = grown(alloc, from, variable, What::Live, from.at.live)?;
    let both = Formula::both(alloc, there, grown)?;
    Ok(both)
}

/// Of which class each is.
fn class_grown(
    alloc: Global,
    from: &Front,
    variable: RelVar,
    class: u8,
) -> Result<Boxed<Formula>, NoMemory>
    ensures meaning { IfOk result (λ r. (m : Reading) → holds r m ≡ class_grown_lem m from.now.at from.now.next variable class) }
    ensures sorted { IfOk result (λ r. (p : Posed) (kinds : Kinds) → IsTrue (nat_lt 0 p.scope.objects) → IsTrue (is_variable p kinds AsSet variable) → IsTrue (is_sorted p kinds r)) }
{
    let given = given(What::ClassOf, from)?;
    let of = is_of_class(alloc, class, given)?;
    let grown = grown(alloc, from, variable, What::ClassOf, from.at.live)?;
    let both = Formula::both(alloc, of, grown)?;
    Ok(both)
}

/// The kind of a field, where the unit has it.
fn kind_of_field(fields: &[FieldDef], field: u8) -> Kind
    ensures { result ≡ field_kind fields.now field }
{
    match at(fields, usize::from(field)) {
        Some(declared) => declared.kind,
        None => Kind::Int,
    }
}

/// A field of the class of a new object.
fn field_grown(
    alloc: Global,
    declared: &[FieldDef],
    from: &Front,
    variable: RelVar,
    field: u8,
) -> Result<Boxed<Formula>, NoMemory>
    ensures meaning { IfOk result (λ r. (m : Reading) → holds r m ≡ field_grown_lem m declared.now from.now.at from.now.next variable field) }
    ensures sorted { IfOk result (λ r. (p : Posed) (kinds : Kinds) → p.unit.fields ≡ declared.now
        → IsTrue (is_some (slice_get declared.now field)) → IsTrue (nat_lt 0 p.scope.objects)
        → IsTrue (is_variable p kinds AsSet variable) → IsTrue (is_sorted p kinds r)) }
{
    let kind = kind_of_field(declared, field);
    let given = given(What::Field(field), from)?;
    let first = is_first(alloc, kind, given)?;
    let old = from.at.field(field);
    let grown = grown(alloc, from, variable, What::Field(field), old.index)?;
    let both = Formula::both(alloc, first, grown)?;
    Ok(both)
}

/// All fields of the class of a new object.
fn fields_grown(
    alloc: Global,
    declared: &[FieldDef],
    from: &Front,
    variable: RelVar,
    fields: &[u8],
) -> Result<Boxed<Formula>, NoMemory>
    ensures meaning { IfOk result (λ r. (m : Reading) → holds r m ≡ list_all (field_grown_lem m declared.now from.now.at from.now.next variable) fields.now) }
    ensures sorted { IfOk result (λ r. (p : Posed) (kinds : Kinds) → p.unit.fields ≡ declared.now
        → IsTrue (list_all (λ f. is_some (slice_get declared.now f)) fields.now) → IsTrue (nat_lt 0 p.scope.objects)
        → IsTrue (is_variable p kinds AsSet variable) → IsTrue (is_sorted p kinds r)) }
{
    let mut parts = Items::from_vec(Vec::with_capacity(alloc, fields.len())?);
    for field in fields {
        let grown = field_grown(alloc, declared, from, variable, *field)?;
        parts.push(grown.into_inner())?;
    }
    let all = Formula::all(alloc, parts)?;
    Ok(all)
}

/// How many objects a heap of the problem may have.
fn objects_of(problem: &Problem) -> u8
    ensures { result ≡ problem.now.scope.objects }
{
    problem.scope.objects
}

/// There is room, a variable is the next object, and it is there.
fn object_made(
    alloc: Global,
    basis: Basis<'_>,
    from: &Front,
    variable: RelVar,
) -> Result<Boxed<Formula>, NoMemory>
    ensures meaning { IfOk result (λ r. (m : Reading)
        → holds r m ≡ (not (there m (relation_at from.now.at what.Live) (basis.entry.problem.now.scope.objects - 1))
        && list_all (is_placed_lem m variable (relation_at from.now.at what.Live)) (numbers_below basis.entry.problem.now.scope.objects)
        && live_grown_lem m from.now.at from.now.next variable)) }
    ensures sorted { IfOk result (λ r. (kinds : Kinds) → IsTrue (is_variable basis.entry.problem.now kinds AsSet variable) → IsTrue (is_sorted basis.entry.problem.now kinds r)) }
{
    well_posed(basis.problem);
    let live = from.at.live();
    let objects = objects_of(basis.problem);
    let room = has_room(alloc, live, objects)?;
    let placed = all_placed(alloc, variable, live, objects)?;
    let front = Formula::both(alloc, room, placed)?;
    let lives = live_grown(alloc, from, variable)?;
    let all = Formula::both(alloc, front, lives)?;
    Ok(all)
}

/// The fields of a problem's unit.
fn fields_of(problem: &Problem) -> &[FieldDef]
    ensures { result.now ≡ problem.now.unit.fields }
{
    problem.unit.fields.as_slice()
}

/// The class of this number.
fn class_at(classes: &[ClassDef], class: u8) -> Option<&ClassDef>
    ensures { option_copied result ≡ slice_get classes.now class }
{
    at(classes, usize::from(class))
}

/// The class of this number of a problem's unit.
fn class_of(problem: &Problem, class: u8) -> Option<&ClassDef>
    ensures { option_copied result ≡ slice_get problem.now.unit.classes class }
{
    class_at(problem.unit.classes.as_slice(), class)
}

/// A variable is a new object of a class of these fields, with their first values, and all else is as it was.
fn all_made(
    alloc: Global,
    basis: Basis<'_>,
    from: &Front,
    target: u16,
    class: u8,
    fields: &[u8],
) -> Result<Boxed<Formula>, NoMemory>
    ensures meaning { IfOk result (λ r. (m : Reading) → holds r m ≡ is_made m basis.entry.problem.now from.now.at from.now.next target class fields.now) }
    ensures sorted { IfOk result (λ r. (kinds : Kinds)
        → IsTrue (is_variable basis.entry.problem.now kinds AsSet (slot_lem target from.now.next))
        → IsTrue (list_all (λ f. is_some (slice_get basis.entry.problem.now.unit.fields f)) fields.now)
        → IsTrue (is_sorted basis.entry.problem.now kinds r)) }
{
    well_posed(basis.problem);
    let variable = slot(target, from.next);
    let object = object_made(alloc, basis, from, variable)?;
    let classes = class_grown(alloc, from, variable, class)?;
    let heap = Formula::both(alloc, object, classes)?;
    let declared = fields_of(basis.problem);
    let cells = fields_grown(alloc, declared, from, variable, fields)?;
    let all = Formula::both(alloc, heap, cells)?;
    Ok(all)
}

/// A variable is set to a new object of a class that has these fields.
fn make_of(
    alloc: Global,
    basis: Basis<'_>,
    from: Front,
    target: u16,
    class: u8,
    fields: &[u8],
) -> Result<Part, NoMemory>
    ensures { IfOk result (λ r. (d : TheClass) → slice_get basis.entry.problem.now.unit.classes class ≡ Some d
        → d.fields ≡ fields.now → IsStep basis.entry.problem.now basis.entry.kinds.now (acts.Make target class) from r) }
{
    well_posed(basis.problem);
    let formula = all_made(alloc, basis, &from, target, class, fields)?;
    let behind = next_index(from.next)?;
    let next = next_index(behind)?;
    let at = with_new(from.at, target, fields, from.next);
    Ok(Part {
        formula,
        end: Front { at, next },
    })
}

/// The part of no run at all: nothing begins with it.
pub fn nothing(alloc: Global, from: Front) -> Result<Part, NoMemory>
    ensures { IfOk result (λ r. (p : Posed) (kinds : List TheKind) (before after : Vars) → IsPoint p kinds from.next from.at → IsPath p kinds before after (λ s t. ⊥) from r) }
{
    let formula = Formula::constant(alloc, false)?;
    Ok(Part { formula, end: from })
}

/// A variable is set to a new object of a class, where there is room. Linear in the problem's objects and in the
/// fields of the class, besides the look-ups of the indices. It takes two indices: the values with which the
/// object begins have one of their own.
pub fn make(
    alloc: Global,
    basis: Basis<'_>,
    from: Front,
    target: u16,
    class: u8,
) -> Result<Part, NoMemory>
    ensures { IfOk result (IsStep basis.entry.problem.now basis.entry.kinds.now (acts.Make target class) from) }
{
    match class_of(basis.problem, class) {
        Some(declared) => {
            let part = make_of(
                alloc,
                basis,
                from,
                target,
                class,
                declared.fields.as_slice(),
            )?;
            Ok(part)
        }
        None => {
            let part = nothing(alloc, from)?;
            Ok(part)
        }
    }
}
