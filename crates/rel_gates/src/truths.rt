ghost use Rattle.std.specs.Prelude.{◌≡◌, ℕ, ◌+◌, All, length, IfOk, IsTrue};
ghost use Rattle.gate_core.specs.Circuit.{IsOf, Keeps};
ghost use Rattle.rel_core.specs.declared.sets.RelExpr.{RelExpr};
ghost use Rattle.rel_core.specs.declared.formula.Formula.TheVariants.{Flag, FlagAt};
ghost use Rattle.rel_core.specs.Uses.{AsFlag};
ghost use Rattle.rel_gates.specs.Naming.{is_named_for, wanted_one, wanted_each};
ghost use Rattle.rel_gates.specs.Meant.{Stand, AreSet, IsTruthOf, IsSubset};

use crate::members::gates_for;
use crate::named::Relations;
use gate_core::{Gate, Gates};
use gate_sets::{at_only, within};
use heap_core::{Problem, well_posed};
use no_memory::NoMemory;
use rel_core::RelVar;
use std::alloc::Global;

/// The flag of a relation at place 0.
pub(crate) fn flag_gate(
    gates: &Gates,
    problem: &Problem,
    relations: &Relations,
    relation: RelVar,
) -> Gate
    requires stand { Stand gates.now relations.now }
    requires named { IsTrue (is_named_for relations.now (wanted_one problem.now AsFlag relation)) }
    ensures { IsTruthOf problem.now relations.now gates.now (Flag relation) result }
{
    well_posed(problem);
    let _nodes = gates.nodes();
    let list = gates_for(relations, relation);
    list[0]
}

/// Whether each value of one set is in another.
pub(crate) fn subset_gate(
    gates: &mut Gates,
    problem: &Problem,
    relations: &Relations,
    inner: &[Gate],
    outer: &[Gate],
) -> Result<Gate, NoMemory>
    requires stand { Stand gates.old relations.now }
    requires inner { All (IsOf gates.old) inner.now }
    requires outer { All (IsOf gates.old) outer.now }
    requires wide { length inner.now ≡ problem.now.scope.objects + 1 }
    requires alike { length outer.now ≡ length inner.now }
    ensures subset { IfOk result (IsSubset problem.now relations.now gates.old gates.new inner.now outer.now) }
    ensures keeps { Keeps gates.old gates.new }
{
    let gate = within(gates, inner, outer)?;
    Ok(gate)
}

/// The flag of a relation at the only object of a set, and false where there is none.
pub(crate) fn flag_at_gate(
    alloc: Global,
    gates: &mut Gates,
    problem: &Problem,
    relations: &Relations,
    set: &[Gate],
    relation: RelVar,
) -> Result<Gate, NoMemory>
    requires stand { Stand gates.old relations.now }
    requires set { All (IsOf gates.old) set.now }
    requires wide { length set.now ≡ problem.now.scope.objects + 1 }
    requires named { IsTrue (is_named_for relations.now (wanted_each problem.now AsFlag relation)) }
    ensures flag { IfOk result (λ gate. (e : RelExpr) → AreSet problem.now relations.now gates.old e set.now → IsTruthOf problem.now relations.now gates.new (FlagAt e relation) gate) }
    ensures keeps { Keeps gates.old gates.new }
{
    let rows = gates_for(relations, relation);
    let places = at_only(alloc, gates, problem.scope.objects, set, rows, 1)?;
    let gate = places[0];
    Ok(gate)
}
