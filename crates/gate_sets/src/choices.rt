ghost use Rattle.std.specs.Prelude.{◌≡◌, ℕ, Bool, All, length, IfOk, if◌then◌else◌};
ghost use Rattle.gate_core.specs.Circuit.{value, IsOf, Keeps};
ghost use Rattle.gate_arith.specs.Operations.{IsTruth};
ghost use Rattle.gate_sets.specs.Lists.{at, AreTruths};
ghost use Rattle.gate_sets.specs.Shapes.{are_same};

use gate_arith::{both, exclusive_or, select};
use gate_core::{Gate, Gates};
use no_memory::NoMemory;
use std::alloc::Global;

/// Whether two lists of one length agree at each place: two rows, numbers or flags. Four nodes for
/// each place.
#[tactic(auto, using(gate_core::proofs::Values::growing, crate::proofs::Standing::reading))]
pub fn same_places(gates: &mut Gates, a: &[Gate], b: &[Gate]) -> Result<Gate, NoMemory>
    requires left { All (IsOf gates.old) a.now }
    requires right { All (IsOf gates.old) b.now }
    requires wide { length b.now ≡ length a.now }
    ensures same { IfOk result (IsTruth gates.new (λ inputs. are_same (length a.now) (at gates.old a.now inputs) (at gates.old b.now inputs))) }
    ensures keeps { Keeps gates.old gates.new }
{
    let mut same = gates.constant(true);
    for place in 0..a.len() {
        let x = a[place];
        let y = b[place];
        let apart = exclusive_or(gates, x, y)?;
        same = both(gates, same, apart.not())?;
    }
    Ok(same)
}

/// The places of the first list where the condition is true, and else those of the second. Three nodes
/// for each place.
pub fn chosen(
    alloc: Global,
    gates: &mut Gates,
    condition: Gate,
    a: &[Gate],
    b: &[Gate],
) -> Result<Vec<Gate>, NoMemory>
    requires condition { IsOf gates.old condition }
    requires left { All (IsOf gates.old) a.now }
    requires right { All (IsOf gates.old) b.now }
    requires wide { length b.now ≡ length a.now }
    ensures chosen { IfOk result (λ r. AreTruths gates.new (length a.now) (λ inputs i. if value inputs gates.old condition then at gates.old a.now inputs i else at gates.old b.now inputs i) r.items) }
    ensures keeps { Keeps gates.old gates.new }
{
    let places = select(alloc, gates, condition, a, b)?;
    Ok(places)
}
