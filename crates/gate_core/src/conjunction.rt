ghost use Rattle.std.specs.Prelude.{◌≡◌, ℕ, ◌*◌, ◌<◌, ◌^◌, ◌&&◌, Bool, length, min, max, IfOk, OnOk, OnErr};
ghost use Rattle.gate_core.specs.Circuit.{simplified, StandsAt, IsOf, IsJoined, PutsOnce};
ghost use Rattle.gate_core.specs.Chains.{nodes_of, IsArena};
ghost use Rattle.gate_core.specs.declared.circuit.Node.TheVariants.{And};

use crate::arena::{Cell, append, standing};
use crate::circuit::{Gate, Node};
use no_memory::NoMemory;
use std::alloc::Global;

/// The gate of a conjunction that needs no node.
fn simplify(a: Gate, b: Gate) -> Option<Gate>
    ensures { result ≡ simplified a b }
{
    let (left, right) = (a.number(), b.number());
    if left == 0 || right == 0 || left == b.not().number() {
        Some(Gate::of_node(0))
    } else if left == 1 || left == right {
        Some(b)
    } else if right == 1 {
        Some(a)
    } else {
        None
    }
}

/// The two gates with the lower one first.
fn in_order(a: Gate, b: Gate) -> (Gate, Gate)
    ensures first { result.0 ≡ min a b }
    ensures second { result.1 ≡ max a b }
{
    if a.number() <= b.number() {
        (a, b)
    } else {
        (b, a)
    }
}

/// The place of the node that holds the conjunction of two gates in this order: the one that stands,
/// or a new one behind the others.
fn conjoin(
    alloc: Global,
    cells: &mut Vec<Cell>,
    heads: &mut Vec<u32>,
    first: Gate,
    second: Gate,
) -> Result<u32, NoMemory>
    requires arena { IsArena cells.old.items heads.old.items }
    requires first { IsOf (nodes_of cells.old.items) first }
    requires second { IsOf (nodes_of cells.old.items) second }
    requires first_free { 1 < first }
    requires second_free { 1 < second }
    ensures stands { IfOk result (λ place. StandsAt (nodes_of cells.new.items) (And first second) place × (place < 2 ^ 31)) }
    ensures ok { OnOk result (PutsOnce (nodes_of cells.old.items) (nodes_of cells.new.items) (And first second)) }
    ensures err { OnErr result (nodes_of cells.new.items ≡ nodes_of cells.old.items) }
    ensures arena { IsArena cells.new.items heads.new.items }
{
    if let Some(place) = standing(cells, heads, first, second) {
        return Ok(place);
    }
    append(alloc, cells, heads, Node::And(first, second))
}

/// The gate of the conjunction of two gates of the circuit.
#[tactic(auto, using(crate::proofs::Conjunctions::free_sides))]
pub(crate) fn join(
    alloc: Global,
    cells: &mut Vec<Cell>,
    heads: &mut Vec<u32>,
    a: Gate,
    b: Gate,
) -> Result<Gate, NoMemory>
    requires arena { IsArena cells.old.items heads.old.items }
    requires left { IsOf (nodes_of cells.old.items) a }
    requires right { IsOf (nodes_of cells.old.items) b }
    ensures joined { IfOk result (IsJoined (nodes_of cells.old.items) (nodes_of cells.new.items) a b) }
    ensures err { OnErr result (nodes_of cells.new.items ≡ nodes_of cells.old.items) }
    ensures arena { IsArena cells.new.items heads.new.items }
{
    if let Some(known) = simplify(a, b) {
        return Ok(known);
    }
    let (first, second) = in_order(a, b);
    let place = conjoin(alloc, cells, heads, first, second)?;
    Ok(Gate::of_node(place))
}
