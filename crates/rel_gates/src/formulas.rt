//! The gates of formulas.

ghost use Rattle.std.specs.Prelude.{IfOk, IsTrue, flat_map};
ghost use Rattle.gate_core.specs.Circuit.{Keeps};
ghost use Rattle.rel_gates.specs.Naming.{are_named, uses};
ghost use Rattle.rel_gates.specs.Meant.{Stand, IsTruthOf};
ghost use Rattle.rel_gates.specs.Parts.{AreTruthsOf};

use crate::changes::{Change, changed_gate};
use crate::classes::class_gate;
use crate::members::{gates_for, set_gates};
use crate::named::Relations;
use crate::number_walk::number_gates;
use crate::numbers::{are_same, is_below};
use crate::truths::{flag_at_gate, flag_gate, subset_gate};
use gate_arith::{all_of, any_of, exclusive_or};
use gate_core::{Gate, Gates};
use heap_core::{Problem, well_posed};
use no_memory::NoMemory;
use rel_core::Formula;
use std::alloc::Global;

/// The gates of parts of a formula.
#[cycle(formulas)]
#[tactic(auto, using(gate_core::proofs::Values::growing))]
fn part_gates(
    alloc: Global,
    gates: &mut Gates,
    problem: &Problem,
    relations: &Relations,
    parts: &[Formula],
) -> Result<Vec<Gate>, NoMemory>
    requires stand { Stand gates.old relations.now }
    requires named { IsTrue (are_named relations.now (flat_map (uses problem.now) parts.now)) }
    ensures parts { IfOk result (λ r. AreTruthsOf problem.now relations.now gates.new parts.now r.items) }
    ensures keeps { Keeps gates.old gates.new }
{
    // what holds of every circuit is known once its nodes are looked at: it has one at least
    let _nodes = gates.nodes();
    let mut list = Vec::new(alloc);
    for part in parts {
        let gate = formula_gate(alloc, gates, problem, relations, part)?;
        list.push(gate)?;
    }
    Ok(list)
}

/// The gate of a formula: true exactly where it holds under the reading that the inputs show.
#[cycle(formulas)]
#[tactic(auto, using(gate_core::proofs::Values::growing))]
pub(crate) fn formula_gate(
    alloc: Global,
    gates: &mut Gates,
    problem: &Problem,
    relations: &Relations,
    formula: &Formula,
) -> Result<Gate, NoMemory>
    requires stand { Stand gates.old relations.now }
    requires named { IsTrue (are_named relations.now (uses problem.now formula.now)) }
    ensures truth { IfOk result (IsTruthOf problem.now relations.now gates.new formula.now) }
    ensures keeps { Keeps gates.old gates.new }
{
    well_posed(problem);
    let _nodes = gates.nodes();
    match formula {
        Formula::Const(truth) => Ok(gates.constant(*truth)),
        Formula::Flag(relation) => Ok(flag_gate(gates, problem, relations, *relation)),
        Formula::FlagAt(set, relation) => {
            let members = set_gates(alloc, gates, problem, relations, set.get())?;
            let gate = flag_at_gate(alloc, gates, problem, relations, &members, *relation)?;
            Ok(gate)
        }
        Formula::Subset(a, b) => {
            let inner = set_gates(alloc, gates, problem, relations, a.get())?;
            let outer = set_gates(alloc, gates, problem, relations, b.get())?;
            let gate = subset_gate(gates, problem, relations, &inner, &outer)?;
            Ok(gate)
        }
        Formula::IsClass(set, class, relation) => {
            let members = set_gates(alloc, gates, problem, relations, set.get())?;
            let rows = gates_for(relations, *relation);
            let gate = class_gate(alloc, gates, problem, &members, rows, *class)?;
            Ok(gate)
        }
        Formula::SameNum(a, b) => {
            let x = number_gates(alloc, gates, problem, relations, a.get())?;
            let y = number_gates(alloc, gates, problem, relations, b.get())?;
            let gate = are_same(gates, problem, &x, &y)?;
            Ok(gate)
        }
        Formula::BelowNum(a, b) => {
            let x = number_gates(alloc, gates, problem, relations, a.get())?;
            let y = number_gates(alloc, gates, problem, relations, b.get())?;
            let gate = is_below(gates, problem, &x, &y)?;
            Ok(gate)
        }
        Formula::Fits(a) => {
            let x = number_gates(alloc, gates, problem, relations, a.get())?;
            Ok(x.there)
        }
        Formula::Changed(new, set, given, old) => {
            let members = set_gates(alloc, gates, problem, relations, set.get())?;
            let change = Change {
                new: *new,
                given: *given,
                old: *old,
            };
            let gate = changed_gate(alloc, gates, problem, relations, &members, change)?;
            Ok(gate)
        }
        Formula::Not(a) => {
            let gate = formula_gate(alloc, gates, problem, relations, a.get())?;
            Ok(gate.not())
        }
        Formula::And(parts) => {
            let list = part_gates(alloc, gates, problem, relations, parts.as_slice())?;
            let gate = all_of(gates, &list)?;
            Ok(gate)
        }
        Formula::Or(parts) => {
            let list = part_gates(alloc, gates, problem, relations, parts.as_slice())?;
            let gate = any_of(gates, &list)?;
            Ok(gate)
        }
        Formula::Same(a, b) => {
            let x = formula_gate(alloc, gates, problem, relations, a.get())?;
            let y = formula_gate(alloc, gates, problem, relations, b.get())?;
            let apart = exclusive_or(gates, x, y)?;
            Ok(apart.not())
        }
    }
}
