//! Whether objects have a class.

ghost use Rattle.std.specs.Prelude.{◌≡◌, ℕ, ◌+◌, ◌*◌, All, length, IfOk};
ghost use Rattle.gate_core.specs.Circuit.{value, IsOf, Keeps};
ghost use Rattle.gate_arith.specs.Operations.{IsTruth};
ghost use Rattle.gate_sets.specs.Lists.{at, AreTruths};
ghost use Rattle.gate_sets.specs.Shapes.{has_object, is_within};
ghost use Rattle.rel_gates.specs.Shown.{class_bits as class_bits_lem};
ghost use Rattle.rel_gates.specs.Limits.{row_is, is_class_at};

use crate::bits::{is_number, row};
use crate::widths::class_bits;
use gate_core::{Gate, Gates};
use gate_sets::all_pass;
use heap_core::{Problem, well_posed};
use no_memory::NoMemory;
use std::alloc::Global;

/// Whether the number of a row is that of a class, which is one of the unit's.
fn row_class(
    alloc: Global,
    gates: &mut Gates,
    problem: &Problem,
    row: &[Gate],
    class: u8,
) -> Result<Gate, NoMemory>
    requires row { All (IsOf gates.old) row.now }
    requires wide { length row.now ≡ class_bits_lem problem.now }
    ensures truth { IfOk result (IsTruth gates.new (λ inputs. row_is problem.now (value inputs gates.old) row.now class)) }
    ensures keeps { Keeps gates.old gates.new }
{
    well_posed(problem);
    if usize::from(class) < problem.unit.classes.len() {
        let gate = is_number(alloc, gates, row, u32::from(class))?;
        return Ok(gate);
    }
    Ok(gates.constant(false))
}

/// Of each object whether it has the class.
#[tactic(auto, using(gate_core::proofs::Values::growing, gate_sets::proofs::Places::truths_none))]
fn class_gates(
    alloc: Global,
    gates: &mut Gates,
    problem: &Problem,
    rows: &[Gate],
    class: u8,
) -> Result<Vec<Gate>, NoMemory>
    requires rows { All (IsOf gates.old) rows.now }
    requires long { length rows.now ≡ problem.now.scope.objects * class_bits_lem problem.now }
    ensures classes { IfOk result (λ r. AreTruths gates.new problem.now.scope.objects (λ inputs o. is_class_at problem.now (value inputs gates.old) rows.now class o) r.items) }
    ensures keeps { Keeps gates.old gates.new }
{
    let width = class_bits(problem);
    let mut list = Vec::new(alloc);
    for object in 0..usize::from(problem.scope.objects) {
        let gate = row_class(alloc, gates, problem, row(rows, width, object), class)?;
        list.push(gate)?;
    }
    Ok(list)
}

/// Whether each object of a set has the class.
#[tactic(auto, using(gate_core::proofs::Values::growing))]
pub(crate) fn class_gate(
    alloc: Global,
    gates: &mut Gates,
    problem: &Problem,
    set: &[Gate],
    rows: &[Gate],
    class: u8,
) -> Result<Gate, NoMemory>
    requires set { All (IsOf gates.old) set.now }
    requires wide { length set.now ≡ problem.now.scope.objects + 1 }
    requires rows { All (IsOf gates.old) rows.now }
    requires long { length rows.now ≡ problem.now.scope.objects * class_bits_lem problem.now }
    ensures class { IfOk result (IsTruth gates.new (λ inputs. is_within problem.now.scope.objects (has_object (at gates.old set.now inputs)) (is_class_at problem.now (value inputs gates.old) rows.now class))) }
    ensures keeps { Keeps gates.old gates.new }
{
    let passing = class_gates(alloc, gates, problem, rows, class)?;
    let gate = all_pass(gates, set, &passing)?;
    Ok(gate)
}
