//! Two branches of a program, and what joins them.

ghost use Rattle.std.specs.Prelude.{◌≡◌, false, true, List, length, get_or, slice_get, IfOk, IsTrue, is_some};
ghost use Rattle.heap_core.specs.Posed.{Posed};
ghost use Rattle.rel_core.specs.declared.relation.What.TheVariants as what;
ghost use Rattle.rel_core.specs.Uses.{use_of};
ghost use Rattle.dyn_steps.specs.Paths.{IsSameness};
ghost use Rattle.dyn_steps.specs.Points.{IsPoint};
ghost use Rattle.dyn_steps.specs.Looked.{Vars};
ghost use Rattle.dyn_steps.specs.Joining.{joined, AreJoined, Equates};
ghost use Rattle.dyn_rel.specs.Joining.{all_joined, joint_point, IsOver, SaysOne, SaysSame};
ghost use Rattle.dyn_rel.specs.Looking.{IsList};

use crate::looking::is_in;
use dyn_steps::{Front, Part, Point, same_relation};
use no_memory::NoMemory;
use rel_core::{Formula, What};
use sqlite_items::{Boxed, Items};
use std::alloc::Global;
use taco_unit::Kind;

/// The index at a place, and 0 where there is none.
pub(crate) fn index_at(indices: &[u32], place: usize) -> u32
    ensures { result ≡ get_or indices.now place 0 }
{
    indices.get(place).copied().unwrap_or(0)
}

/// The index behind two branches, by the one with which both began: the second's where that branch gave another one,
/// else the first's.
fn joined_index(old: u32, first: u32, second: u32) -> u32
    ensures { result ≡ joined old first second }
{
    if second == old { first } else { second }
}

/// The same for lists of indices.
fn joined_indices(
    alloc: Global,
    olds: &[u32],
    firsts: &[u32],
    seconds: &[u32],
) -> Result<Items<u32>, NoMemory>
    ensures { IfOk result (λ all. all ≡ all_joined olds.now firsts.now seconds.now) }
{
    let mut all = Items::from_vec(Vec::with_capacity(alloc, firsts.len())?);
    for place in 0..firsts.len() {
        let old = index_at(olds, place);
        let first = index_at(firsts, place);
        let second = index_at(seconds, place);
        let index = joined_index(old, first, second);
        all.push(index)?;
    }
    Ok(all)
}

/// The indices behind two branches.
fn joined_point(alloc: Global, at: &Point, first: &Point, second: &Point) -> Result<Point, NoMemory>
    ensures { IfOk result (λ joint. joint ≡ joint_point at.now first.now second.now) }
{
    let olds = at.fields.as_slice();
    let fields = joined_indices(
        alloc,
        olds,
        first.fields.as_slice(),
        second.fields.as_slice(),
    )?;
    let olds = at.vars.as_slice();
    let vars = joined_indices(alloc, olds, first.vars.as_slice(), second.vars.as_slice())?;
    Ok(Point {
        fields,
        live: joined_index(at.live, first.live, second.live),
        vars,
    })
}

/// A relation that has a use is the same at two indices.
fn equated(
    alloc: Global,
    kinds: &[Kind],
    what: What,
    new: u32,
    old: u32,
) -> Result<Boxed<Formula>, NoMemory>
    ensures { IfOk result (λ r. (p : Posed) → IsTrue (is_some (use_of p (slice_get kinds.now) what)) → IsSameness p kinds.now what new old r) }
{
    if new == old {
        let always = Formula::constant(alloc, true)?;
        Ok(always)
    } else {
        let same = same_relation(alloc, kinds, what, new, old)?;
        Ok(same)
    }
}

/// The same where it is so, and else nothing.
fn equated_if(
    alloc: Global,
    kinds: &[Kind],
    so: bool,
    what: What,
    new: u32,
    old: u32,
) -> Result<Boxed<Formula>, NoMemory>
    ensures { IfOk result (λ r. (p : Posed) → IsTrue (is_some (use_of p (slice_get kinds.now) what)) → SaysOne p kinds.now so what new old r) }
{
    if so {
        let same = equated(alloc, kinds, what, new, old)?;
        Ok(same)
    } else {
        let always = Formula::constant(alloc, true)?;
        Ok(always)
    }
}

/// The number of a field, where it is one.
fn field_number(place: usize) -> Result<u8, NoMemory>
    ensures { IfOk result (λ field. field ≡ place) }
{
    if place < 256 {
        Ok(place as u8)
    } else {
        Err(NoMemory)
    }
}

/// The number of a variable, where it is one.
pub(crate) fn variable_number(place: usize) -> Result<u16, NoMemory>
    ensures { IfOk result (λ variable. variable ≡ place) }
{
    if place < 65536 {
        Ok(place as u16)
    } else {
        Err(NoMemory)
    }
}

/// Each field of the unit is the same at two indices.
fn fields_equated(
    alloc: Global,
    kinds: &[Kind],
    to: &[u32],
    from: &[u32],
) -> Result<Boxed<Formula>, NoMemory>
    ensures { IfOk result (λ r. (p : Posed) → length from.now ≡ length p.unit.fields
        → SaysSame p kinds.now (λ x. what.Field x) (λ x. true) to.now from.now (length from.now) r) }
{
    let mut parts = Items::from_vec(Vec::with_capacity(alloc, from.len())?);
    for place in 0..from.len() {
        let field = field_number(place)?;
        let new = index_at(to, place);
        let old = index_at(from, place);
        let same = equated_if(alloc, kinds, true, What::Field(field), new, old)?;
        parts.push(same.into_inner())?;
    }
    let all = Formula::all(alloc, parts)?;
    Ok(all)
}

/// Each variable of a set is the same at two indices.
fn vars_equated(
    alloc: Global,
    kinds: &[Kind],
    set: &[bool],
    to: &[u32],
    from: &[u32],
) -> Result<Boxed<Formula>, NoMemory>
    ensures { IfOk result (λ r. (p : Posed) → length from.now ≡ length kinds.now
        → SaysSame p kinds.now (λ x. what.Slot x) (λ x. get_or set.now x false) to.now from.now (length from.now) r) }
{
    let mut parts = Items::from_vec(Vec::with_capacity(alloc, from.len())?);
    for place in 0..from.len() {
        let variable = variable_number(place)?;
        let looked = is_in(set, place);
        let new = index_at(to, place);
        let old = index_at(from, place);
        let same = equated_if(alloc, kinds, looked, What::Slot(variable), new, old)?;
        parts.push(same.into_inner())?;
    }
    let all = Formula::all(alloc, parts)?;
    Ok(all)
}

/// Each relation is the same at two points, of the variables each that is looked at.
fn point_equated(
    alloc: Global,
    kinds: &[Kind],
    set: &[bool],
    at: &Point,
    joint: &Point,
) -> Result<Boxed<Formula>, NoMemory>
    ensures { IfOk result (λ r. (p : Posed) (vars : Vars) → IsList (length kinds.now) vars set.now → IsOver p kinds.now at.now joint.now → Equates p kinds.now vars at.now joint.now r) }
{
    let fields = fields_equated(alloc, kinds, joint.fields.as_slice(), at.fields.as_slice())?;
    let vars = vars_equated(alloc, kinds, set, joint.vars.as_slice(), at.vars.as_slice())?;
    let lists = Formula::both(alloc, fields, vars)?;
    let live = equated(alloc, kinds, What::Live, joint.live, at.live)?;
    let class = equated(alloc, kinds, What::ClassOf, joint.live, at.live)?;
    let heap = Formula::both(alloc, live, class)?;
    let all = Formula::both(alloc, lists, heap)?;
    Ok(all)
}

/// The part of two branches that begin at the same indices, the second with the first one's next index. No relation has a
/// new index, and of the variables only those of a set are looked at behind it. Linear in the fields and variables.
pub(crate) fn join(
    alloc: Global,
    kinds: &[Kind],
    set: &[bool],
    at: &Point,
    first: Part,
    second: Part,
) -> Result<Part, NoMemory>
    ensures { IfOk result (λ r. (p : Posed) (vars : Vars) → IsList (length kinds.now) vars set.now
        → IsPoint p kinds.now second.end.next at.now → IsPoint p kinds.now second.end.next first.end.at → IsPoint p kinds.now second.end.next second.end.at
        → AreJoined p kinds.now vars at.now first second r) }
{
    let joint = joined_point(alloc, at, &first.end.at, &second.end.at)?;
    let same = point_equated(alloc, kinds, set, &first.end.at, &joint)?;
    let left = Formula::both(alloc, first.formula, same)?;
    let also = point_equated(alloc, kinds, set, &second.end.at, &joint)?;
    let right = Formula::both(alloc, second.formula, also)?;
    let formula = Formula::either(alloc, left, right)?;
    Ok(Part {
        formula,
        end: Front {
            at: joint,
            next: second.end.next,
        },
    })
}
