ghost use Rattle.std.specs.Prelude.{◌≡◌, ℕ, ◌+◌, ◌*◌, ◌<◌, ◌==◌, Bool, All, List, [], ◌∷◌, ◌++◌, length, map, slice_get, Some, IfOk, IsTrue};
ghost use Rattle.gate_core.specs.Circuit.{IsOf, Keeps};
ghost use Rattle.gate_sets.specs.Lists.{AreTruths};
ghost use Rattle.rel_core.specs.declared.relation.RelVar.{RelVar};
ghost use Rattle.rel_core.specs.declared.sets.RelExpr.{RelExpr};
ghost use Rattle.rel_core.specs.declared.sets.RelExpr.TheVariants.{Var, Nil, Object, Join, Reach};
ghost use Rattle.rel_core.specs.Uses.{AsSet};
ghost use Rattle.rel_gates.specs.Shown.{gates_of, is_named};
ghost use Rattle.rel_gates.specs.Naming.{is_named_for, are_named, wanted_one, wanted_each, set_uses};
ghost use Rattle.rel_gates.specs.Meant.{Stand, AreSet, AreEdges};

use crate::named::Relations;
use gate_core::{Gate, Gates};
use gate_sets::{join, led, no_edges, reached};
use heap_core::{Problem, well_posed};
use no_memory::NoMemory;
use rel_core::{RelExpr, RelVar};
use std::alloc::Global;

/// The gates of a relation that is named.
pub(crate) fn gates_for<'a>(relations: &'a Relations, relation: RelVar) -> &'a [Gate]
    requires { IsTrue (is_named relations.now relation) }
    ensures { gates_of relations.now relation ≡ Some result.now }
{
    match relations.find(relation) {
        Some(gates) => gates,
        None => unreachable!(),
    }
}

/// One place alone, of null and so many objects.
fn place_alone(
    alloc: Global,
    gates: &Gates,
    objects: u8,
    place: usize,
) -> Result<Vec<Gate>, NoMemory>
    ensures { IfOk result (λ r. AreTruths gates.now (objects + 1) (λ inputs i. i == place) r.items) }
{
    let mut list = Vec::new(alloc);
    for number in 0..usize::from(objects) + 1 {
        list.push(gates.constant(number == place))?;
    }
    Ok(list)
}

/// The set of null.
fn null_set(
    alloc: Global,
    gates: &Gates,
    problem: &Problem,
    relations: &Relations,
) -> Result<Vec<Gate>, NoMemory>
    ensures { IfOk result (λ r. AreSet problem.now relations.now gates.now Nil r.items) }
{
    let places = place_alone(alloc, gates, problem.scope.objects, 0)?;
    Ok(places)
}

/// The set of one object.
fn object_set(
    alloc: Global,
    gates: &Gates,
    problem: &Problem,
    relations: &Relations,
    object: u8,
) -> Result<Vec<Gate>, NoMemory>
    ensures { IfOk result (λ r. AreSet problem.now relations.now gates.now (Object object) r.items) }
{
    let place = usize::from(object) + 1;
    let places = place_alone(alloc, gates, problem.scope.objects, place)?;
    Ok(places)
}

/// The references of a relation at place 0.
fn variable_set(
    alloc: Global,
    gates: &Gates,
    problem: &Problem,
    relations: &Relations,
    relation: RelVar,
) -> Result<Vec<Gate>, NoMemory>
    requires stand { Stand gates.now relations.now }
    requires named { IsTrue (is_named_for relations.now (wanted_one problem.now AsSet relation)) }
    ensures { IfOk result (λ r. AreSet problem.now relations.now gates.now (Var relation) r.items) }
{
    well_posed(problem);
    let list = gates_for(relations, relation);
    let mut places = Vec::with_capacity(alloc, list.len())?;
    places.extend_from_slice(list)?;
    Ok(places)
}

/// A set joined with a relation.
fn joined_set(
    alloc: Global,
    gates: &mut Gates,
    problem: &Problem,
    relations: &Relations,
    set: &[Gate],
    relation: RelVar,
) -> Result<Vec<Gate>, NoMemory>
    requires stand { Stand gates.old relations.now }
    requires set { All (IsOf gates.old) set.now }
    requires wide { length set.now ≡ problem.now.scope.objects + 1 }
    requires named { IsTrue (is_named_for relations.now (wanted_each problem.now AsSet relation)) }
    ensures joined { IfOk result (λ r. (e : RelExpr) → AreSet problem.now relations.now gates.old e set.now → AreSet problem.now relations.now gates.new (Join e relation) r.items) }
    ensures keeps { Keeps gates.old gates.new }
{
    let rows = gates_for(relations, relation);
    let places = join(alloc, gates, problem.scope.objects, set, rows)?;
    Ok(places)
}

/// The edges of relations, and those of one more.
fn led_once(
    alloc: Global,
    gates: &mut Gates,
    problem: &Problem,
    relations: &Relations,
    graph: &[Gate],
    relation: RelVar,
) -> Result<Vec<Gate>, NoMemory>
    requires stand { Stand gates.old relations.now }
    requires graph { All (IsOf gates.old) graph.now }
    requires square { length graph.now ≡ problem.now.scope.objects * problem.now.scope.objects }
    requires named { IsTrue (is_named_for relations.now (wanted_each problem.now AsSet relation)) }
    ensures led { IfOk result (λ r. (rs : List RelVar) → AreEdges problem.now relations.now gates.old rs graph.now → AreEdges problem.now relations.now gates.new (rs ++ relation ∷ []) r.items) }
    ensures keeps { Keeps gates.old gates.new }
{
    well_posed(problem);
    let rows = gates_for(relations, relation);
    let next = led(alloc, gates, problem.scope.objects, graph, rows)?;
    Ok(next)
}

/// The relation at a place.
fn relation_at(list: &[RelVar], place: usize) -> RelVar
    requires { place < length list.now }
    ensures { slice_get list.now place ≡ Some result }
{
    list[place]
}

/// The edges of relations: from an object to another wherever one of them leads so.
#[tactic(auto, using(gate_core::proofs::Values::growing))]
fn graph_of(
    alloc: Global,
    gates: &mut Gates,
    problem: &Problem,
    relations: &Relations,
    list: &[RelVar],
) -> Result<Vec<Gate>, NoMemory>
    requires stand { Stand gates.old relations.now }
    requires named { IsTrue (are_named relations.now (map (wanted_each problem.now AsSet) list.now)) }
    ensures graph { IfOk result (λ r. AreEdges problem.now relations.now gates.new list.now r.items) }
    ensures keeps { Keeps gates.old gates.new }
{
    let mut graph = no_edges(alloc, gates, problem.scope.objects)?;
    for place in 0..list.len() {
        let relation = relation_at(list, place);
        graph = led_once(alloc, gates, problem, relations, &graph, relation)?;
    }
    Ok(graph)
}

/// What is reached from a set along relations.
fn reached_set(
    alloc: Global,
    gates: &mut Gates,
    problem: &Problem,
    relations: &Relations,
    set: &[Gate],
    list: &[RelVar],
) -> Result<Vec<Gate>, NoMemory>
    requires stand { Stand gates.old relations.now }
    requires set { All (IsOf gates.old) set.now }
    requires wide { length set.now ≡ problem.now.scope.objects + 1 }
    requires named { IsTrue (are_named relations.now (map (wanted_each problem.now AsSet) list.now)) }
    ensures reached { IfOk result (λ r. (e : RelExpr) → AreSet problem.now relations.now gates.old e set.now → AreSet problem.now relations.now gates.new (Reach e list.now) r.items) }
    ensures keeps { Keeps gates.old gates.new }
{
    let graph = graph_of(alloc, gates, problem, relations, list)?;
    let places = reached(alloc, gates, problem.scope.objects, set, &graph)?;
    Ok(places)
}

/// The gates of a set: null's, and then those of the objects in order.
#[tactic(auto, using(gate_core::proofs::Values::growing))]
pub(crate) fn set_gates(
    alloc: Global,
    gates: &mut Gates,
    problem: &Problem,
    relations: &Relations,
    set: &RelExpr,
) -> Result<Vec<Gate>, NoMemory>
    requires stand { Stand gates.old relations.now }
    requires named { IsTrue (are_named relations.now (set_uses problem.now set.now)) }
    ensures set { IfOk result (λ r. AreSet problem.now relations.now gates.new set.now r.items) }
    ensures keeps { Keeps gates.old gates.new }
{
    match set {
        RelExpr::Var(relation) => variable_set(alloc, gates, problem, relations, *relation),
        RelExpr::Nil => null_set(alloc, gates, problem, relations),
        RelExpr::Object(object) => object_set(alloc, gates, problem, relations, *object),
        RelExpr::Join(inner, relation) => {
            let members = set_gates(alloc, gates, problem, relations, inner.get())?;
            let places = joined_set(alloc, gates, problem, relations, &members, *relation)?;
            Ok(places)
        }
        RelExpr::Reach(inner, list) => {
            let members = set_gates(alloc, gates, problem, relations, inner.get())?;
            let places = reached_set(alloc, gates, problem, relations, &members, list.as_slice())?;
            Ok(places)
        }
    }
}
