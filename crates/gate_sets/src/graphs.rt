ghost use Rattle.std.specs.Prelude.{◌≡◌, ℕ, ◌+◌, ◌*◌, ◌<◌, ◌==◌, Bool, false, ◌&&◌, ◌||◌, All, length, List, IfOk, if◌then◌else◌};
ghost use Rattle.gate_core.specs.declared.circuit.Node.{Node};
ghost use Rattle.gate_core.specs.Circuit.{IsOf, Keeps};
ghost use Rattle.gate_sets.specs.Lists.{at, in_row, AreTruths, AreRows};
ghost use Rattle.gate_sets.specs.Shapes.{any_row, edges, led_edges, reached_set};
ghost use Rattle.heap_core.specs.Closure.{closure};

use crate::rows::{joined, row};
use gate_arith::either;
use gate_core::{Gate, Gates};
use no_memory::NoMemory;
use std::alloc::Global;

/// A graph between so many objects that has no edge: a row for each object, with a place for each.
pub fn no_edges(alloc: Global, gates: &Gates, objects: u8) -> Result<Vec<Gate>, NoMemory>
    ensures { IfOk result (λ r. AreRows gates.now objects objects (λ inputs p o. false) r.items) }
{
    let none = gates.constant(false);
    let mut graph = Vec::new(alloc);
    let places = usize::from(objects) * usize::from(objects);
    for _place in 0..places {
        graph.push(none)?;
    }
    Ok(graph)
}

/// What one or the other of two lists of one length has.
#[tactic(auto, using(gate_core::proofs::Values::growing, crate::proofs::Standing::reading, crate::proofs::Places::truths_none))]
fn either_place(
    alloc: Global,
    gates: &mut Gates,
    a: &[Gate],
    b: &[Gate],
) -> Result<Vec<Gate>, NoMemory>
    requires left { All (IsOf gates.old) a.now }
    requires right { All (IsOf gates.old) b.now }
    requires wide { length b.now ≡ length a.now }
    ensures places { IfOk result (λ r. AreTruths gates.new (length a.now) (λ inputs i. at gates.old a.now inputs i || at gates.old b.now inputs i) r.items) }
    ensures keeps { Keeps gates.old gates.new }
{
    let mut places = Vec::with_capacity(alloc, a.len())?;
    for place in 0..a.len() {
        let x = a[place];
        let y = b[place];
        let gate = either(gates, x, y)?;
        places.push(gate)?;
    }
    Ok(places)
}

/// A graph with an edge more from an object to another wherever a relation leads so. At most a node for
/// each edge.
#[tactic(auto, using(gate_core::proofs::Values::growing, crate::proofs::Places::rows_none, std::proofs::lemmas::Nat::rows))]
pub fn led(
    alloc: Global,
    gates: &mut Gates,
    objects: u8,
    graph: &[Gate],
    relation: &[Gate],
) -> Result<Vec<Gate>, NoMemory>
    requires graph { All (IsOf gates.old) graph.now }
    requires relation { All (IsOf gates.old) relation.now }
    requires square { length graph.now ≡ objects * objects }
    requires long { length relation.now ≡ objects * (objects + 1) }
    ensures led { IfOk result (λ r. AreRows gates.new objects objects (λ inputs p o. led_edges objects gates.old graph.now relation.now inputs p o) r.items) }
    ensures keeps { Keeps gates.old gates.new }
{
    let count = usize::from(objects);
    let mut all = Vec::new(alloc);
    for place in 0..count {
        let before = row(graph, count, place);
        let references = row(relation, count + 1, place);
        let (_, more) = references.split_at(1);
        let next = either_place(alloc, gates, before, more)?;
        all.extend_from_slice(&next)?;
    }
    Ok(all)
}

/// The objects that are at most one edge away from one: itself, and those to which an edge leads.
#[tactic(auto, using(gate_core::proofs::Values::growing, crate::proofs::Standing::reading, crate::proofs::Places::truths_none))]
fn first_row(
    alloc: Global,
    gates: &Gates,
    list: &[Gate],
    object: usize,
) -> Result<Vec<Gate>, NoMemory>
    requires { All (IsOf gates.now) list.now }
    ensures { IfOk result (λ r. AreTruths gates.now (length list.now) (λ inputs o. o == object || at gates.now list.now inputs o) r.items) }
{
    let here = gates.constant(true);
    let mut places = Vec::with_capacity(alloc, list.len())?;
    for place in 0..list.len() {
        let gate = if place == object { here } else { list[place] };
        places.push(gate)?;
    }
    Ok(places)
}

/// From each object, the objects that are at most one edge away.
#[tactic(auto, using(gate_core::proofs::Values::growing, crate::proofs::Places::rows_none, std::proofs::lemmas::Nat::rows))]
fn first_steps(
    alloc: Global,
    gates: &Gates,
    count: usize,
    graph: &[Gate],
) -> Result<Vec<Gate>, NoMemory>
    requires graph { All (IsOf gates.now) graph.now }
    requires square { length graph.now ≡ count * count }
    ensures { IfOk result (λ r. AreRows gates.now count count (λ inputs p o. o == p || in_row count gates.now graph.now inputs p o) r.items) }
{
    let mut all = Vec::new(alloc);
    for place in 0..count {
        let list = row(graph, count, place);
        let next = first_row(alloc, gates, list, place)?;
        all.extend_from_slice(&next)?;
    }
    Ok(all)
}

/// Two steps of a graph in one: an edge wherever one edge leads and then another. Two nodes for each
/// pair of edges.
#[tactic(auto, using(gate_core::proofs::Values::growing, crate::proofs::Places::rows_none, std::proofs::lemmas::Nat::rows))]
fn squared(
    alloc: Global,
    gates: &mut Gates,
    count: usize,
    graph: &[Gate],
) -> Result<Vec<Gate>, NoMemory>
    requires graph { All (IsOf gates.old) graph.now }
    requires square { length graph.now ≡ count * count }
    ensures squared { IfOk result (λ r. AreRows gates.new count count (λ inputs p o. any_row count (in_row count gates.old graph.now inputs p) (in_row count gates.old graph.now inputs) o) r.items) }
    ensures keeps { Keeps gates.old gates.new }
{
    let mut all = Vec::new(alloc);
    for place in 0..count {
        let chosen = row(graph, count, place);
        let next = joined(alloc, gates, chosen, graph, count)?;
        all.extend_from_slice(&next)?;
    }
    Ok(all)
}

/// The closure of a graph: of each two objects whether edges lead from the first to the second, each
/// object to itself. The steps are squared until there are as many as objects.
#[tactic(auto, using(gate_core::proofs::Values::growing))]
pub fn closed(
    alloc: Global,
    gates: &mut Gates,
    objects: u8,
    graph: &[Gate],
) -> Result<Vec<Gate>, NoMemory>
    requires graph { All (IsOf gates.old) graph.now }
    requires square { length graph.now ≡ objects * objects }
    ensures closed { IfOk result (λ r. AreRows gates.new objects objects (λ inputs p o. closure (edges objects gates.old graph.now inputs) objects (λ q. q == p) o) r.items) }
    ensures keeps { Keeps gates.old gates.new }
{
    let count = usize::from(objects);
    let mut paths = first_steps(alloc, gates, count, graph)?;
    let mut steps = 1;
    while steps < count {
        paths = squared(alloc, gates, count, &paths)?;
        steps *= 2;
    }
    Ok(paths)
}

/// The objects that are reached from those of a set along a graph, as a set without null. Two nodes for
/// each pair of objects, besides those of the closure.
#[tactic(auto, using(gate_core::proofs::Values::growing))]
pub fn reached(
    alloc: Global,
    gates: &mut Gates,
    objects: u8,
    set: &[Gate],
    graph: &[Gate],
) -> Result<Vec<Gate>, NoMemory>
    requires set { All (IsOf gates.old) set.now }
    requires graph { All (IsOf gates.old) graph.now }
    requires wide { length set.now ≡ objects + 1 }
    requires square { length graph.now ≡ objects * objects }
    ensures reached { IfOk result (λ r. AreTruths gates.new (objects + 1) (λ inputs i. reached_set objects gates.old set.now graph.now inputs i) r.items) }
    ensures keeps { Keeps gates.old gates.new }
{
    let paths = closed(alloc, gates, objects, graph)?;
    let (_, chosen) = set.split_at(1);
    let found = joined(alloc, gates, chosen, &paths, usize::from(objects))?;
    let mut places = Vec::with_capacity(alloc, set.len())?;
    places.push(gates.constant(false))?;
    places.extend_from_slice(&found)?;
    Ok(places)
}
