ghost use Rattle.std.specs.Prelude.{◌≡◌, ◌≢◌, ℕ, ◌+◌, ◌*◌, ◌/◌, ◌<◌, ◌≤◌, ◌^◌, ◌++◌, ◌∷◌, [], length, map, MatchOption, IfOk, OnErr, OnOk, Some, IsTrue, ◌↔◌, vec_len, slice_index};
ghost use Rattle.gate_core.specs.Circuit.{StandsAt, MayFollow};
ghost use Rattle.gate_core.specs.Chains.{chain_of, nodes_of, IsArena, IsChained};
ghost use Rattle.gate_core.specs.declared.circuit.Node.TheVariants.{And};

use crate::circuit::{Gate, Node};
use no_memory::NoMemory;
use std::alloc::Global;

/// A node, with the link of its hash chain: the place of the nearest node before it whose conjunction
/// has the same hash, or `END`.
#[derive(Clone, Copy)]
pub(crate) struct Cell {
    pub(crate) node: Node,
    pub(crate) next: u32,
}

/// The end of a chain: node 0 is the constant, so no chain passes it.
pub(crate) const END: u32 = 0;

/// A gate has a number of 32 bits, and a node is half of one.
const MOST_NODES: usize = 1 << 31;

/// The chain of a conjunction, where there are `count` chains.
#[tactic(auto, unfolding(crate::specs::Chains::chain_of))]
fn chain(first: Gate, second: Gate, count: usize) -> usize
    requires { 0 < count }
    ensures is { result ≡ chain_of count first second }
    ensures within { result < count }
{
    ((u64::from(first.number()) * 2654435761 + u64::from(second.number())) % count as u64) as usize
}

/// The node is the conjunction of these two gates, in this order.
fn joins(node: &Node, first: Gate, second: Gate) -> bool
    ensures { IsTrue result ↔ (node.now ≡ And first second) }
{
    match node {
        Node::And(a, b) => a.number() == first.number() && b.number() == second.number(),
        _ => false,
    }
}

/// The place of the node that holds the conjunction, found along its chain.
pub(crate) fn standing(cells: &[Cell], heads: &[u32], first: Gate, second: Gate) -> Option<u32>
    requires { IsArena cells.now heads.now }
    ensures { MatchOption result ((place : ℕ) → StandsAt (nodes_of cells.now) (And first second) place → ⊥) (λ place. StandsAt (nodes_of cells.now) (And first second) place) }
{
    let mut place = heads[chain(first, second, heads.len())];
    while place != END {
        let cell = &cells[place as usize];
        if joins(&cell.node, first, second) {
            return Some(place);
        }
        place = cell.next;
    }
    None
}

/// Puts a cell at the head of its chain, where the cells before it are chained.
fn link(cells: &mut Vec<Cell>, heads: &mut Vec<u32>, place: usize)
    requires within { place < vec_len cells.old }
    requires fits { place < 2 ^ 32 }
    requires chained { IsChained cells.old.items heads.old.items place }
    ensures nodes { nodes_of cells.new.items ≡ nodes_of cells.old.items }
    ensures count { vec_len heads.new ≡ vec_len heads.old }
    ensures chained { IsChained cells.new.items heads.new.items (place + 1) }
{
    if let Node::And(a, b) = cells[place].node {
        let chain = chain(a, b, heads.len());
        cells[place].next = heads[chain];
        heads[chain] = place as u32;
    }
}

/// Where there is a node for each head, makes a table of twice as many heads, and puts every cell
/// into its chain there. So a chain is short on average, and the work is constant for each node.
fn make_room(alloc: Global, cells: &mut Vec<Cell>, heads: &mut Vec<u32>) -> Result<(), NoMemory>
    requires arena { IsArena cells.old.items heads.old.items }
    ensures nodes { nodes_of cells.new.items ≡ nodes_of cells.old.items }
    ensures arena { IsArena cells.new.items heads.new.items }
{
    if cells.len() < heads.len() {
        return Ok(());
    }
    let mut wider = vec![in alloc; END; 2 * heads.len()]?;
    for place in 0..cells.len() {
        link(cells, &mut wider, place);
    }
    *heads = wider;
    Ok(())
}

/// Puts a node behind the others and into its chain. It answers the node's place.
pub(crate) fn append(
    alloc: Global,
    cells: &mut Vec<Cell>,
    heads: &mut Vec<u32>,
    node: Node,
) -> Result<u32, NoMemory>
    requires arena { IsArena cells.old.items heads.old.items }
    requires follows { MayFollow (nodes_of cells.old.items) node }
    ensures place { IfOk result (λ place. (place ≡ length (nodes_of cells.old.items)) × (place < 2 ^ 31)) }
    ensures ok { OnOk result (nodes_of cells.new.items ≡ nodes_of cells.old.items ++ node ∷ []) }
    ensures err { OnErr result (nodes_of cells.new.items ≡ nodes_of cells.old.items) }
    ensures arena { IsArena cells.new.items heads.new.items }
{
    if cells.len() >= MOST_NODES {
        return Err(NoMemory);
    }
    make_room(alloc, cells, heads)?;
    let place = cells.len();
    cells.push(Cell { node, next: END })?;
    link(cells, heads, place);
    Ok(place as u32)
}
