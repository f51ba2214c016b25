ghost use Rattle.std.specs.Prelude.{◌≡◌, ◌<◌, ◌||◌, not, true, length, slice_get, IfOk, IsTrue, nat_lt};
ghost use Rattle.std.specs.Option.{option_map_or};
ghost use Rattle.heap_core.specs.Heap.{Heap, is_of};
ghost use Rattle.rel_core.specs.Reading.{Reading};
ghost use Rattle.rel_core.specs.Meaning.{holds};
ghost use Rattle.rel_core.specs.Uses.{Kinds, is_sorted};
ghost use Rattle.jml_rel.specs.Clauses.{SaysGood, SaysInside, ShowsPosedHeap};
ghost use Rattle.jml_rel.specs.Asked.{class_passes, heap_passes, object_passes};

use crate::asked::Asked;
use crate::fields::of_fields;
use crate::guards::is_there;
use crate::invariants::of_invariants;
use heap_core::{Problem, well_posed};
use no_memory::NoMemory;
use rel_core::{Formula, Indices};
use sqlite_items::{Boxed, Items};
use std::alloc::Global;
use taco_unit::ClassDef;

/// What is asked of the object of this number, where it is of this class.
fn of_definition(
    alloc: Global,
    problem: &Problem,
    at: &Indices,
    asked: Asked,
    object: u8,
    definition: &ClassDef,
) -> Result<Boxed<Formula>, NoMemory>
    ensures meaning { IfOk result (λ f. (m : Reading) (heap : Heap) → ShowsPosedHeap problem.now m at.now heap → object < length heap
        → holds f m ≡ class_passes asked problem.now heap object definition.now) }
    ensures sorted { IfOk result (λ f. (kinds : Kinds) → IsTrue (nat_lt object problem.now.scope.objects) → IsTrue (is_sorted problem.now kinds f)) }
{
    let invariants = definition.invariants.as_slice();
    let answered = of_invariants(alloc, problem, at, asked, object, invariants)?;
    match asked {
        Asked::Good => {
            let given = of_fields(alloc, problem, at, object, definition.fields.as_slice())?;
            let both = Formula::both(alloc, given, answered)?;
            Ok(both)
        }
        Asked::Inside => Ok(answered),
    }
}

/// Where the object of this number is there and of the class, it passes.
fn of_class(
    alloc: Global,
    problem: &Problem,
    at: &Indices,
    asked: Asked,
    object: u8,
    class: u8,
) -> Result<Boxed<Formula>, NoMemory>
    ensures meaning { IfOk result (λ f. (m : Reading) (heap : Heap) → ShowsPosedHeap problem.now m at.now heap → IsTrue (nat_lt object m.objects)
        → holds f m ≡ (not (is_of heap class object) || option_map_or (class_passes asked problem.now heap object) (slice_get problem.now.unit.classes class) true)) }
    ensures sorted { IfOk result (λ f. (kinds : Kinds) → IsTrue (nat_lt object problem.now.scope.objects) → IsTrue (is_sorted problem.now kinds f)) }
{
    well_posed(problem);
    match problem.unit.classes.get(usize::from(class)) {
        Some(definition) => {
            let there = is_there(alloc, at, class, object)?;
            let passes = of_definition(alloc, problem, at, asked, object, definition)?;
            let implied = Formula::implies(alloc, there, passes)?;
            Ok(implied)
        }
        None => {
            let always = Formula::constant(alloc, true)?;
            Ok(always)
        }
    }
}

/// The number of classes.
fn class_count(problem: &Problem) -> u8
    ensures { result ≡ length problem.now.unit.classes }
{
    well_posed(problem);
    problem.unit.classes.len() as u8
}

/// Where the object of this number is there, it passes.
fn of_object(
    alloc: Global,
    problem: &Problem,
    at: &Indices,
    asked: Asked,
    object: u8,
) -> Result<Boxed<Formula>, NoMemory>
    ensures meaning { IfOk result (λ f. (m : Reading) (heap : Heap) → ShowsPosedHeap problem.now m at.now heap → IsTrue (nat_lt object m.objects)
        → holds f m ≡ object_passes asked problem.now heap object) }
    ensures sorted { IfOk result (λ f. (kinds : Kinds) → IsTrue (nat_lt object problem.now.scope.objects) → IsTrue (is_sorted problem.now kinds f)) }
{
    let classes = class_count(problem);
    let mut parts = Items::new(alloc);
    for class in 0..classes {
        let part = of_class(alloc, problem, at, asked, object, class)?;
        parts.push(part.into_inner())?;
    }
    let all = Formula::all(alloc, parts)?;
    Ok(all)
}

/// Each object of the heap passes.
fn of_heap(
    alloc: Global,
    problem: &Problem,
    at: &Indices,
    asked: Asked,
) -> Result<Boxed<Formula>, NoMemory>
    ensures meaning { IfOk result (λ f. (m : Reading) (heap : Heap) → ShowsPosedHeap problem.now m at.now heap → holds f m ≡ heap_passes asked problem.now heap) }
    ensures sorted { IfOk result (λ f. (kinds : Kinds) → IsTrue (is_sorted problem.now kinds f)) }
{
    let mut parts = Items::new(alloc);
    for object in 0..problem.scope.objects {
        let part = of_object(alloc, problem, at, asked, object)?;
        parts.push(part.into_inner())?;
    }
    let all = Formula::all(alloc, parts)?;
    Ok(all)
}

/// The heap at given indices is good: no field of an object is null that must not be, and every invariant of an
/// object is true. One instance of each class for each object of the scope, and a few nodes more for each field.
pub fn good_formula(
    alloc: Global,
    problem: &Problem,
    at: &Indices,
) -> Result<Boxed<Formula>, NoMemory>
    ensures told { IfOk result (λ f. SaysGood problem.now at.now f) }
    ensures sorted { IfOk result (λ f. (kinds : Kinds) → IsTrue (is_sorted problem.now kinds f)) }
{
    let good = of_heap(alloc, problem, at, Asked::Good)?;
    Ok(good)
}

/// No invariant of an object of the heap at given indices leaves the scopes. As large as `good_formula`.
pub fn inside_formula(
    alloc: Global,
    problem: &Problem,
    at: &Indices,
) -> Result<Boxed<Formula>, NoMemory>
    ensures told { IfOk result (λ f. SaysInside problem.now at.now f) }
    ensures sorted { IfOk result (λ f. (kinds : Kinds) → IsTrue (is_sorted problem.now kinds f)) }
{
    let inside = of_heap(alloc, problem, at, Asked::Inside)?;
    Ok(inside)
}
