ghost use Rattle.std.specs.Prelude.{◌≡◌, ℕ, ◌+◌, ◌-◌, ◌≤◌, Bool, All, length, IfOk};
ghost use Rattle.std.specs.List.{list_all, list_any};
ghost use Rattle.gate_core.specs.Circuit.{value, IsOf, Keeps};
ghost use Rattle.gate_arith.specs.Operations.{IsTruth};

use crate::logic::{both, either};
use gate_core::{Gate, Gates};
use no_memory::NoMemory;

/// The conjunction of all gates of a list, true where there is none. It is a balanced tree: for n gates
/// it costs n - 1 nodes, and a gate passes as many of them as the logarithm of n is high.
#[tactic(auto, using(gate_core::proofs::Values::growing))]
pub fn all_of(gates: &mut Gates, list: &[Gate]) -> Result<Gate, NoMemory>
    requires { All (IsOf gates.old) list.now }
    ensures truth { IfOk result (IsTruth gates.new (λ inputs. list_all (value inputs gates.old) list.now)) }
    ensures keeps { Keeps gates.old gates.new }
    ensures nodes { length gates.new ≤ length gates.old + (length list.now - 1) }
{
    match list {
        [] => Ok(gates.constant(true)),
        [gate] => Ok(*gate),
        _ => {
            let (left, right) = list.split_at(list.len() / 2);
            let first = all_of(gates, left)?;
            let second = all_of(gates, right)?;
            let gate = both(gates, first, second)?;
            Ok(gate)
        }
    }
}

/// The disjunction of all gates of a list, false where there is none. It is a balanced tree, as that of
/// `all_of`.
#[tactic(auto, using(gate_core::proofs::Values::growing))]
pub fn any_of(gates: &mut Gates, list: &[Gate]) -> Result<Gate, NoMemory>
    requires { All (IsOf gates.old) list.now }
    ensures truth { IfOk result (IsTruth gates.new (λ inputs. list_any (value inputs gates.old) list.now)) }
    ensures keeps { Keeps gates.old gates.new }
    ensures nodes { length gates.new ≤ length gates.old + (length list.now - 1) }
{
    match list {
        [] => Ok(gates.constant(false)),
        [gate] => Ok(*gate),
        _ => {
            let (left, right) = list.split_at(list.len() / 2);
            let first = any_of(gates, left)?;
            let second = any_of(gates, right)?;
            let gate = either(gates, first, second)?;
            Ok(gate)
        }
    }
}
