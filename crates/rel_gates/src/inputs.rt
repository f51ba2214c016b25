ghost use Rattle.std.specs.Prelude.{◌≡◌, ℕ, ◌+◌, ◌*◌, ◌<◌, ◌≤◌, ◌/◌, Bool, true, false, [], ◌∷◌, ◌++◌, length, IfOk, ◌==◌};
ghost use Rattle.gate_core.specs.declared.circuit.Node.TheVariants.{Input};
ghost use Rattle.gate_core.specs.Circuit.{Keeps};
ghost use Rattle.tuple_sets.specs.Words.{has as has_lem};
ghost use Rattle.rel_gates.specs.Naming.{AreInputs, IsConstant};

use gate_core::{Gate, Gates};
use no_memory::NoMemory;
use std::alloc::Global;
use tuple_sets::has;

/// So many new inputs.
#[tactic(auto, using(crate::proofs::Fresh::no_inputs))]
pub(crate) fn inputs(alloc: Global, gates: &mut Gates, count: usize) -> Result<Vec<Gate>, NoMemory>
    ensures inputs { IfOk result (λ r. AreInputs gates.old gates.new count (λ j. true) r.items) }
    ensures keeps { Keeps gates.old gates.new }
{
    let mut list = Vec::with_capacity(alloc, count)?;
    for _place in 0..count {
        let gate = gates.input()?;
        list.push(gate)?;
    }
    Ok(list)
}

/// A new input where there is to be one, and else the constant false.
fn input_where(gates: &mut Gates, present: bool) -> Result<Gate, NoMemory>
    ensures there { IfOk result (λ gate. present ≡ true → (gate ≡ 2 * length gates.old) × (gates.new ≡ gates.old ++ Input ∷ [])) }
    ensures none { IfOk result (λ gate. present ≡ false → (gate ≡ 0) × (gates.new ≡ gates.old)) }
    ensures constant { IfOk result (λ gate. present ≡ false → IsConstant gates.new gate) }
    ensures keeps { Keeps gates.old gates.new }
{
    if present {
        let gate = gates.input()?;
        return Ok(gate);
    }
    Ok(gates.constant(false))
}

/// New inputs for tuples of which the first has this number: one for each that the set has, and the
/// constant false for each other.
#[tactic(auto, using(crate::proofs::Fresh::no_inputs))]
pub(crate) fn tuple_inputs(
    alloc: Global,
    gates: &mut Gates,
    upper: &[u64],
    first: u32,
    count: u32,
) -> Result<Vec<Gate>, NoMemory>
    requires few { first + count ≤ 5109 }
    requires words { (t : ℕ) → t < first + count → t / 64 < length upper.now }
    ensures inputs { IfOk result (λ r. AreInputs gates.old gates.new count (λ j. has_lem upper.now (first + j) == 1) r.items) }
    ensures keeps { Keeps gates.old gates.new }
{
    let mut list = Vec::with_capacity(alloc, count as usize)?;
    for place in 0..count {
        let present = has(upper, first + place);
        let gate = input_where(gates, present)?;
        list.push(gate)?;
    }
    Ok(list)
}
