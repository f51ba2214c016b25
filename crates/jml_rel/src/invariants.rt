ghost use Rattle.std.specs.Prelude.{◌≡◌, ◌<◌, length, IfOk, IsTrue, nat_lt};
ghost use Rattle.heap_core.specs.declared.value.Seen.{Seen};
ghost use Rattle.heap_core.specs.Posed.{Posed};
ghost use Rattle.heap_core.specs.Heap.{Heap};
ghost use Rattle.heap_core.specs.Eval.{eval};
ghost use Rattle.heap_core.specs.Judge.{invariant_env};
ghost use Rattle.rel_core.specs.declared.indices.Indices.{Indices as Listed};
ghost use Rattle.rel_core.specs.Reading.{Reading};
ghost use Rattle.rel_core.specs.Meaning.{holds};
ghost use Rattle.rel_core.specs.Uses.{Kinds, is_sorted};
ghost use Rattle.jml_rel.specs.Clauses.{AreSorted, ShowsPosedHeap, ThreeTell, heap_alone as heap_alone_lem};
ghost use Rattle.jml_rel.specs.Asked.{are_answered, is_answered};

use crate::asked::Asked;
use crate::clauses::{Three, clause_formulas};
use heap_core::Problem;
use no_memory::NoMemory;
use rel_core::{Formula, Indices, RelExpr};
use sqlite_items::{Boxed, Items};
use std::alloc::Global;
use taco_unit::Clause;

/// The indices of the heap alone.
fn heap_alone(alloc: Global, at: &Indices) -> Result<Indices, NoMemory>
    ensures { IfOk result (λ alone. alone ≡ heap_alone_lem at.now) }
{
    let heap = Items::from_slice(alloc, at.heap.as_slice())?;
    Ok(Indices {
        heap,
        live: at.live,
        slots: Items::new(alloc),
        result: 0,
    })
}

/// That of a clause's formulas which is asked for.
fn asked_of(asked: Asked, formulas: Three) -> Boxed<Formula>
    ensures told { (m : Reading) (s : Seen) → ThreeTell s formulas m → holds result m ≡ is_answered asked s }
    ensures sorted { (p : Posed) (kinds : Kinds) → AreSorted p kinds formulas → IsTrue (is_sorted p kinds result) }
{
    let Three {
        truth,
        defined: _,
        inside,
    } = formulas;
    match asked {
        Asked::Good => truth,
        Asked::Inside => inside,
    }
}

/// What is asked of an invariant of the object of this number, at the indices of a heap alone.
fn of_invariant(
    alloc: Global,
    problem: &Problem,
    alone: &Indices,
    asked: Asked,
    object: u8,
    clause: &Clause,
) -> Result<Boxed<Formula>, NoMemory>
    ensures meaning { IfOk result (λ f. (at : Listed) (m : Reading) (heap : Heap) → alone.now ≡ heap_alone_lem at → ShowsPosedHeap problem.now m at heap → object < length heap
        → holds f m ≡ is_answered asked (eval clause.now.expr (invariant_env problem.now heap object))) }
    ensures sorted { IfOk result (λ f. (at : Listed) (kinds : Kinds) → alone.now ≡ heap_alone_lem at → IsTrue (nat_lt object problem.now.scope.objects) → IsTrue (is_sorted problem.now kinds f)) }
{
    let this = RelExpr::object(alloc, object)?;
    let formulas = clause_formulas(alloc, problem, alone, alone, &this, clause)?;
    Ok(asked_of(asked, formulas))
}

/// What is asked of these invariants of the object of this number.
pub(crate) fn of_invariants(
    alloc: Global,
    problem: &Problem,
    at: &Indices,
    asked: Asked,
    object: u8,
    clauses: &[Clause],
) -> Result<Boxed<Formula>, NoMemory>
    ensures meaning { IfOk result (λ f. (m : Reading) (heap : Heap) → ShowsPosedHeap problem.now m at.now heap → object < length heap
        → holds f m ≡ are_answered asked problem.now heap object clauses.now) }
    ensures sorted { IfOk result (λ f. (kinds : Kinds) → IsTrue (nat_lt object problem.now.scope.objects) → IsTrue (is_sorted problem.now kinds f)) }
{
    let alone = heap_alone(alloc, at)?;
    let mut parts = Items::new(alloc);
    for clause in clauses {
        let part = of_invariant(alloc, problem, &alone, asked, object, clause)?;
        parts.push(part.into_inner())?;
    }
    let all = Formula::all(alloc, parts)?;
    Ok(all)
}
