ghost use Rattle.std.specs.Prelude.{◌≡◌, ◌&&◌, not, IfOk, IsTrue, Some, nat_lt, slice_get};
ghost use Rattle.heap_core.specs.declared.value.Value.TheVariants.{Null as null_value};
ghost use Rattle.heap_core.specs.Posed.{Posed};
ghost use Rattle.heap_core.specs.Heap.{Heap};
ghost use Rattle.heap_core.specs.Judge.{is_missing, must_be_there};
ghost use Rattle.rel_core.specs.Reading.{Reading};
ghost use Rattle.rel_core.specs.Meaning.{holds};
ghost use Rattle.rel_core.specs.Uses.{Kinds, AsSet, is_sorted, is_spread};
ghost use Rattle.jml_rel.specs.Clauses.{ShowsPosedHeap};
ghost use Rattle.jml_rel.specs.Asked.{are_given};

use heap_core::Problem;
use no_memory::NoMemory;
use rel_core::{Formula, Indices, RelExpr, RelVar};
use sqlite_items::{Boxed, Items};
use std::alloc::Global;
use taco_unit::{FieldDef, Kind};

/// Whether a field must not be null.
fn is_needed(declared: &FieldDef) -> bool
    ensures { result ≡ must_be_there declared.now.kind declared.now.nullable }
{
    match declared.kind {
        Kind::Ref(_) => !declared.nullable,
        _ => false,
    }
}

/// A relation has null at the object of this number.
fn has_null(alloc: Global, relation: RelVar, object: u8) -> Result<Boxed<Formula>, NoMemory>
    ensures meaning { IfOk result (λ f. (m : Reading) → IsTrue (nat_lt object m.objects) → holds f m ≡ m.refs relation object null_value) }
    ensures sorted { IfOk result (λ f. (p : Posed) (kinds : Kinds) → IsTrue (nat_lt object p.scope.objects) → IsTrue (is_spread p kinds AsSet relation) → IsTrue (is_sorted p kinds f)) }
{
    let null = RelExpr::nil(alloc)?;
    let set = RelExpr::object(alloc, object)?;
    let held = RelExpr::join(alloc, set, relation)?;
    let has = Formula::subset(alloc, null, held)?;
    Ok(has)
}

/// A field that is declared so is not null at the object of this number, or it may be null.
fn of_declared(
    alloc: Global,
    at: &Indices,
    object: u8,
    field: u8,
    declared: &FieldDef,
) -> Result<Boxed<Formula>, NoMemory>
    ensures meaning { IfOk result (λ f. (p : Posed) (m : Reading) (heap : Heap) → slice_get p.unit.fields field ≡ Some declared.now → ShowsPosedHeap p m at.now heap
        → IsTrue (nat_lt object m.objects) → holds f m ≡ not (is_missing p heap object field)) }
    ensures sorted { IfOk result (λ f. (p : Posed) (kinds : Kinds) → slice_get p.unit.fields field ≡ Some declared.now → IsTrue (nat_lt object p.scope.objects) → IsTrue (is_sorted p kinds f)) }
{
    if is_needed(declared) {
        let null = has_null(alloc, at.field(field), object)?;
        let given = Formula::not(alloc, null)?;
        Ok(given)
    } else {
        let always = Formula::constant(alloc, true)?;
        Ok(always)
    }
}

/// A field is not null at the object of this number, or it may be null.
fn of_field(
    alloc: Global,
    problem: &Problem,
    at: &Indices,
    object: u8,
    field: u8,
) -> Result<Boxed<Formula>, NoMemory>
    ensures meaning { IfOk result (λ f. (m : Reading) (heap : Heap) → ShowsPosedHeap problem.now m at.now heap → IsTrue (nat_lt object m.objects)
        → holds f m ≡ not (is_missing problem.now heap object field)) }
    ensures sorted { IfOk result (λ f. (kinds : Kinds) → IsTrue (nat_lt object problem.now.scope.objects) → IsTrue (is_sorted problem.now kinds f)) }
{
    match problem.unit.fields.get(usize::from(field)) {
        Some(declared) => {
            let given = of_declared(alloc, at, object, field, declared)?;
            Ok(given)
        }
        None => {
            let always = Formula::constant(alloc, true)?;
            Ok(always)
        }
    }
}

/// None of these fields is null at the object of this number that must not be.
pub(crate) fn of_fields(
    alloc: Global,
    problem: &Problem,
    at: &Indices,
    object: u8,
    fields: &[u8],
) -> Result<Boxed<Formula>, NoMemory>
    ensures meaning { IfOk result (λ f. (m : Reading) (heap : Heap) → ShowsPosedHeap problem.now m at.now heap → IsTrue (nat_lt object m.objects)
        → holds f m ≡ are_given problem.now heap object fields.now) }
    ensures sorted { IfOk result (λ f. (kinds : Kinds) → IsTrue (nat_lt object problem.now.scope.objects) → IsTrue (is_sorted problem.now kinds f)) }
{
    let mut parts = Items::new(alloc);
    for field in fields {
        let part = of_field(alloc, problem, at, object, *field)?;
        parts.push(part.into_inner())?;
    }
    let all = Formula::all(alloc, parts)?;
    Ok(all)
}
