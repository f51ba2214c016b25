ghost use Rattle.std.specs.Prelude.{◌≡◌, ◌≤◌, length, flat_map, IfOk};
ghost use Rattle.heap_core.specs.Exec.{memory_of};
ghost use Rattle.heap_core.specs.Judge.{broken_at as broken_at_lem, numbers_of, judged_end as judged_end_lem};
ghost use Rattle.heap_replay.specs.Firsts.{first, parts_of, untrue_from};

use crate::clauses::{all_invariants, any_out, count_of, gives_of, invariants_at, is_true};
use crate::good::{first_missing, lacks_result};
use heap_core::{Judged, Object, Part, Problem, Seen, Start, Value, well_posed};
use no_memory::NoMemory;
use std::alloc::Global;

/// The first of these values that is not true, counted from 1.
fn first_untrue(values: &[Seen]) -> Option<u8>
    requires { length values.now ≤ 255 }
    ensures { result ≡ first (untrue_from 1 values.now) }
{
    for (place, value) in values.iter().enumerate() {
        if !is_true(*value) {
            return Some(place as u8 + 1);
        }
    }
    None
}

/// The first broken part of an object: its missing fields come before its invariants.
fn broken_at(
    alloc: Global,
    problem: &Problem,
    heap: &[Object],
    object: u8,
) -> Result<Option<Part>, NoMemory>
    requires { length heap.now ≤ problem.now.scope.objects }
    ensures { IfOk result (λ part. part ≡ first (broken_at_lem problem.now heap.now object)) }
{
    if let Some(field) = first_missing(problem, heap, object) {
        return Ok(Some(Part::NonNull(object, field)));
    }
    well_posed(problem);
    let invariants = invariants_at(alloc, problem, heap, object)?;
    match first_untrue(invariants.as_slice()) {
        Some(number) => Ok(Some(Part::Invariant(number, object))),
        None => Ok(None),
    }
}

/// The first broken part of all objects, in number order.
fn broken_in(alloc: Global, problem: &Problem, heap: &[Object]) -> Result<Option<Part>, NoMemory>
    requires { length heap.now ≤ problem.now.scope.objects }
    ensures { IfOk result (λ part. part ≡ first (flat_map (broken_at_lem problem.now heap.now) (numbers_of heap.now))) }
{
    for object in 0..count_of(problem, heap) {
        if let Some(part) = broken_at(alloc, problem, heap, object)? {
            return Ok(Some(part));
        }
    }
    Ok(None)
}

/// The first broken part, where these are the values of the method's `ensures` clauses.
fn first_broken(
    alloc: Global,
    problem: &Problem,
    gives: &[Seen],
    returned: Option<Value>,
    heap: &[Object],
) -> Result<Option<Part>, NoMemory>
    requires few { length heap.now ≤ problem.now.scope.objects }
    requires clauses { length gives.now ≤ 255 }
    ensures { IfOk result (λ part. part ≡ first (parts_of problem.now gives.now returned heap.now)) }
{
    if let Some(number) = first_untrue(gives) {
        return Ok(Some(Part::Ensures(number)));
    }
    if lacks_result(problem, returned) {
        return Ok(Some(Part::Result));
    }
    let part = broken_in(alloc, problem, heap)?;
    Ok(part)
}

/// The judgement where the method gives this result and leaves this heap.
pub fn judged_end(
    alloc: Global,
    problem: &Problem,
    start: &Start,
    returned: Option<Value>,
    heap: &[Object],
) -> Result<Judged, NoMemory>
    requires before { length start.now.objects ≤ problem.now.scope.objects }
    requires after { length heap.now ≤ problem.now.scope.objects }
    ensures { IfOk result (λ judged. judged ≡ judged_end_lem problem.now start.now returned (memory_of heap.now)) }
{
    let gives = gives_of(alloc, problem, start, returned, heap)?;
    let invariants = all_invariants(alloc, problem, heap)?;
    if any_out(gives.as_slice()) || any_out(invariants.as_slice()) {
        return Ok(Judged::Outside);
    }
    well_posed(problem);
    match first_broken(alloc, problem, gives.as_slice(), returned, heap)? {
        Some(part) => Ok(Judged::Breaks(part)),
        None => Ok(Judged::Meets),
    }
}
