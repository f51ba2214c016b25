//! The relations of a problem's tuples, in the order of the tuples.

ghost use Rattle.std.specs.Prelude.{◌≡◌, ℕ, ◌+◌, ◌<◌, ◌≤◌, ◌/◌, ◌++◌, length, None, Some, slice_get, IfOk, OnOk};
ghost use Rattle.gate_core.specs.Circuit.{Keeps};
ghost use Rattle.canonical_order.specs.Tuples.{links_of};
ghost use Rattle.rel_gates.specs.Shown.{gates_of, variable_of};
ghost use Rattle.rel_gates.specs.Rows.{total, roots_in, root_uses, link_uses, tuple_uses as tuple_uses_lem, AreApart, NamesTuple, NamesTuples};

use crate::inputs::tuple_inputs;
use crate::named::Relations;
use crate::naming::use_at;
use canonical_order::{link_at, link_count, root_at, root_count};
use gate_core::{Gate, Gates};
use heap_core::{Problem, method_in, well_posed};
use no_memory::NoMemory;
use rel_core::{RelVar, What};
use std::alloc::Global;

/// The program variable of a root: the parameters in order, and the receiver behind them.
fn root_variable(problem: &Problem, root: usize) -> u16
    requires { root ≤ 8 }
    ensures { result ≡ variable_of problem.now root }
{
    well_posed(problem);
    if root == 0 {
        return method_in(problem).params.len() as u16;
    }
    (root - 1) as u16
}

/// The relation of the root at a place, with as many gates as it has tuples.
fn root_use(problem: &Problem, place: usize) -> (RelVar, usize)
    requires { place < length (roots_in problem.now) }
    ensures { slice_get (root_uses problem.now) place ≡ Some result }
{
    well_posed(problem);
    match root_at(method_in(problem), place) {
        Some(root) => {
            let relation = RelVar {
                what: What::Slot(root_variable(problem, root)),
                index: 0,
            };
            (relation, usize::from(problem.scope.objects) + 1)
        }
        None => unreachable!(),
    }
}

/// The class-kind field at a place, with as many gates as it has tuples.
fn link_use(problem: &Problem, place: usize) -> (RelVar, usize)
    requires { place < length (links_of problem.now.unit) }
    ensures { slice_get (link_uses problem.now) place ≡ Some result }
{
    match link_at(&problem.unit, place) {
        Some(field) => {
            let relation = RelVar {
                what: What::Field(field as u8),
                index: 0,
            };
            let objects = usize::from(problem.scope.objects);
            (relation, objects * (objects + 1))
        }
        None => unreachable!(),
    }
}

/// How many roots there are.
fn count_roots(problem: &Problem) -> usize
    ensures { result ≡ length (roots_in problem.now) }
{
    well_posed(problem);
    root_count(method_in(problem))
}

/// The relations of the roots.
fn add_roots(list: &mut Vec<(RelVar, usize)>, problem: &Problem) -> Result<(), NoMemory>
    ensures { OnOk result (list.new.items ≡ list.old.items ++ root_uses problem.now) }
{
    for place in 0..count_roots(problem) {
        list.push(root_use(problem, place))?;
    }
    Ok(())
}

/// The fields of class kind.
fn add_links(list: &mut Vec<(RelVar, usize)>, problem: &Problem) -> Result<(), NoMemory>
    ensures { OnOk result (list.new.items ≡ list.old.items ++ link_uses problem.now) }
{
    for place in 0..link_count(&problem.unit) {
        list.push(link_use(problem, place))?;
    }
    Ok(())
}

/// The relations of the tuples in tuple order, each with as many gates as it has tuples.
pub(crate) fn tuple_uses(alloc: Global, problem: &Problem) -> Result<Vec<(RelVar, usize)>, NoMemory>
    ensures { IfOk result (λ r. r.items ≡ tuple_uses_lem problem.now) }
{
    let mut list = Vec::new(alloc);
    add_roots(&mut list, problem)?;
    add_links(&mut list, problem)?;
    Ok(list)
}

/// Names a relation by the inputs of tuples, of which the first has the number of the gates that there
/// are, and puts these gates behind the others.
fn name_tuple(
    alloc: Global,
    gates: &mut Gates,
    relations: &mut Relations,
    upper: &[u64],
    all: &mut Vec<Gate>,
    item: (RelVar, usize),
) -> Result<(), NoMemory>
    requires new { gates_of relations.old item.0 ≡ None }
    requires few { length all.old.items + item.1 ≤ 5109 }
    requires words { (t : ℕ) → t < length all.old.items + item.1 → t / 64 < length upper.now }
    ensures named { OnOk result (NamesTuple gates.old gates.new relations.old relations.new upper.now all.old.items all.new.items (length all.old.items) item) }
    ensures keeps { Keeps gates.old gates.new }
{
    let list = tuple_inputs(alloc, gates, upper, all.len() as u32, item.1 as u32)?;
    all.extend_from_slice(&list)?;
    relations.push(item.0, list)?;
    Ok(())
}

/// Names relations by the inputs of tuples, one behind the other. The answer has them, and the gates of
/// all tuples.
#[tactic(auto, using(gate_core::proofs::Values::growing))]
pub(crate) fn name_tuples(
    alloc: Global,
    gates: &mut Gates,
    upper: &[u64],
    uses: &[(RelVar, usize)],
) -> Result<(Relations, Vec<Gate>), NoMemory>
    requires apart { AreApart uses.now }
    requires few { total uses.now ≤ 5109 }
    requires words { (t : ℕ) → t < total uses.now → t / 64 < length upper.now }
    ensures named { IfOk result (λ r. NamesTuples gates.old gates.new upper.now uses.now (length uses.now) r.0 r.1.items) }
    ensures keeps { Keeps gates.old gates.new }
{
    let mut relations = Relations::new(alloc);
    let mut all = Vec::new(alloc);
    for place in 0..uses.len() {
        let item = use_at(uses, place);
        name_tuple(alloc, gates, &mut relations, upper, &mut all, item)?;
    }
    Ok((relations, all))
}
