ghost use Rattle.std.specs.Prelude.{◌≡◌, All, length, replicate, IfOk};
ghost use Rattle.gate_core.specs.Circuit.{IsOf, Keeps};
ghost use Rattle.gate_arith.specs.Operations.{IsSelected};
ghost use Rattle.gate_arith.specs.Choice.{IsChoice};

use crate::logic::choice;
use gate_core::{Gate, Gates};
use no_memory::NoMemory;
use std::alloc::Global;

#[tactic(auto, using(gate_core::proofs::Values::growing, crate::proofs::Choices::chosen_none))]
fn choose(
    alloc: Global,
    gates: &mut Gates,
    condition: Gate,
    a: &[Gate],
    b: &[Gate],
) -> Result<Vec<Gate>, NoMemory>
    requires condition { IsOf gates.old condition }
    requires left { All (IsOf gates.old) a.now }
    requires right { All (IsOf gates.old) b.now }
    requires wide { length b.now ≡ length a.now }
    ensures chosen { IfOk result (λ r. IsChoice gates.old gates.new condition a.now b.now (length a.now) r.items) }
    ensures keeps { Keeps gates.old gates.new }
{
    let mut chosen = Vec::with_capacity(alloc, a.len())?;
    for place in 0..a.len() {
        let x = a[place];
        let y = b[place];
        let gate = choice(gates, condition, x, y)?;
        chosen.push(gate)?;
    }
    Ok(chosen)
}

/// The first list of gates where the condition is true, and else the second. It costs three nodes for
/// each place, and one where a gate of the second list is the constant false.
#[tactic(auto, using(crate::proofs::Choices::selected))]
pub fn select(
    alloc: Global,
    gates: &mut Gates,
    condition: Gate,
    a: &[Gate],
    b: &[Gate],
) -> Result<Vec<Gate>, NoMemory>
    requires condition { IsOf gates.old condition }
    requires left { All (IsOf gates.old) a.now }
    requires right { All (IsOf gates.old) b.now }
    requires wide { length b.now ≡ length a.now }
    ensures selected { IfOk result (λ r. IsSelected gates.old gates.new condition a.now b.now r.items) }
    ensures keeps { Keeps gates.old gates.new }
{
    let chosen = choose(alloc, gates, condition, a, b)?;
    Ok(chosen)
}

/// A gate so many times.
pub(crate) fn repeated(alloc: Global, gate: Gate, count: usize) -> Result<Vec<Gate>, NoMemory>
    ensures { IfOk result (λ r. r.items ≡ replicate count gate) }
{
    let mut gates = Vec::with_capacity(alloc, count)?;
    for _place in 0..count {
        gates.push(gate)?;
    }
    Ok(gates)
}
