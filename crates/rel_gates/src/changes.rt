//! Whether a relation is another that changes at some objects.

ghost use Rattle.std.specs.Prelude.{◌≡◌, ◌+◌, ◌*◌, [], All, length, IfOk, IsTrue, if◌then◌else◌};
ghost use Rattle.std.specs.Option.{option_map_or};
ghost use Rattle.gate_core.specs.Circuit.{value, IsOf, Keeps};
ghost use Rattle.gate_arith.specs.Operations.{IsTruth};
ghost use Rattle.gate_sets.specs.Lists.{at};
ghost use Rattle.gate_sets.specs.Shapes.{are_same};
ghost use Rattle.rel_core.specs.declared.sets.RelExpr.{RelExpr};
ghost use Rattle.rel_core.specs.declared.formula.Formula.TheVariants.{Changed};
ghost use Rattle.rel_gates.specs.Naming.{are_named, changed_uses, spread_use};
ghost use Rattle.rel_gates.specs.Meant.{Stand, AreSet, IsTruthOf};
ghost use Rattle.rel_gates.specs.Changes.{rows_change};

use crate::bits::row;
use crate::members::gates_for;
use crate::named::Relations;
use crate::widths::spread_width;
use gate_arith::both;
use gate_core::{Gate, Gates};
use gate_sets::{chosen, same_places};
use heap_core::{Problem, well_posed};
use no_memory::NoMemory;
use rel_core::RelVar;
use std::alloc::Global;

/// A relation, what it has at some objects, and what it was.
#[derive(Clone, Copy)]
pub(crate) struct Change {
    pub(crate) new: RelVar,
    pub(crate) given: RelVar,
    pub(crate) old: RelVar,
}

/// Whether a row is the given one where a gate is true, and else the old one.
#[tactic(auto, using(gate_core::proofs::Values::growing))]
fn row_changes(
    alloc: Global,
    gates: &mut Gates,
    inside: Gate,
    new: &[Gate],
    given: &[Gate],
    old: &[Gate],
) -> Result<Gate, NoMemory>
    requires inside { IsOf gates.old inside }
    requires new { All (IsOf gates.old) new.now }
    requires given { All (IsOf gates.old) given.now }
    requires old { All (IsOf gates.old) old.now }
    requires wide { length new.now ≡ length given.now }
    requires alike { length old.now ≡ length given.now }
    ensures truth { IfOk result (IsTruth gates.new (λ inputs. are_same (length given.now) (at gates.old new.now inputs)
        (λ i. if value inputs gates.old inside then at gates.old given.now inputs i else at gates.old old.now inputs i))) }
    ensures keeps { Keeps gates.old gates.new }
{
    let there = chosen(alloc, gates, inside, given, old)?;
    let gate = same_places(gates, new, &there)?;
    Ok(gate)
}

/// Whether rows, one for each object, are the given row at those objects whose gates are true, and else
/// the old rows.
#[tactic(auto, using(gate_core::proofs::Values::growing))]
fn rows_changed(
    alloc: Global,
    gates: &mut Gates,
    members: &[Gate],
    new: &[Gate],
    given: &[Gate],
    old: &[Gate],
) -> Result<Gate, NoMemory>
    requires members { All (IsOf gates.old) members.now }
    requires new { All (IsOf gates.old) new.now }
    requires given { All (IsOf gates.old) given.now }
    requires old { All (IsOf gates.old) old.now }
    requires long { length new.now ≡ length members.now * length given.now }
    requires alike { length old.now ≡ length members.now * length given.now }
    ensures truth { IfOk result (IsTruth gates.new (λ inputs. rows_change (length given.now) (value inputs gates.old) members.now new.now given.now old.now)) }
    ensures keeps { Keeps gates.old gates.new }
{
    let width = given.len();
    let mut every = gates.constant(true);
    for place in 0..members.len() {
        let inside = members[place];
        let row_new = row(new, width, place);
        let row_old = row(old, width, place);
        let here = row_changes(alloc, gates, inside, row_new, given, row_old)?;
        every = both(gates, every, here)?;
    }
    Ok(every)
}

/// Whether a relation has at each object of a set what another has at place 0, and else what a third
/// has.
pub(crate) fn changed_gate(
    alloc: Global,
    gates: &mut Gates,
    problem: &Problem,
    relations: &Relations,
    set: &[Gate],
    change: Change,
) -> Result<Gate, NoMemory>
    requires stand { Stand gates.old relations.now }
    requires set { All (IsOf gates.old) set.now }
    requires wide { length set.now ≡ problem.now.scope.objects + 1 }
    requires named { IsTrue (are_named relations.now (option_map_or (changed_uses problem.now change.new change.given change.old) (spread_use problem.now change.new) [])) }
    ensures changed { IfOk result (λ gate. (e : RelExpr) → AreSet problem.now relations.now gates.old e set.now
        → IsTruthOf problem.now relations.now gates.new (Changed change.new e change.given change.old) gate) }
    ensures keeps { Keeps gates.old gates.new }
{
    well_posed(problem);
    match spread_width(problem, change.new.what) {
        Some(width) => {
            let new = gates_for(relations, change.new);
            let given = row(gates_for(relations, change.given), width, 0);
            let old = gates_for(relations, change.old);
            let (_, members) = set.split_at(1);
            let gate = rows_changed(alloc, gates, members, new, given, old)?;
            Ok(gate)
        }
        None => Ok(gates.constant(false)),
    }
}
