ghost use Rattle.std.specs.Prelude.{◌≡◌, ℕ, ◌<◌, ◌≤◌, ◌==◌, nat_lt, Bool, not, ◌&&◌, All, length, IfOk, int_lt, if◌then◌else◌};
ghost use Rattle.std.specs.Ordering.{int_eq};
ghost use Rattle.gate_core.specs.Circuit.{value, IsOf, Keeps};
ghost use Rattle.gate_arith.specs.Numbers.{differ};
ghost use Rattle.gate_arith.specs.Operations.{shown, IsTruth};
ghost use Rattle.gate_arith.specs.Comparison.{IsTested};

use crate::logic::{both, either, exclusive_or};
use gate_core::{Gate, Gates};
use no_memory::NoMemory;

/// The borrow of a place where a difference needs one: the second bit where the two differ, and else the
/// borrow of the place before. It costs four nodes.
#[tactic(auto, using(gate_core::proofs::Values::growing))]
fn borrow(gates: &mut Gates, x: Gate, y: Gate, before: Gate) -> Result<Gate, NoMemory>
    requires left { IsOf gates.old x }
    requires right { IsOf gates.old y }
    requires before { IsOf gates.old before }
    ensures truth { IfOk result (IsTruth gates.new (λ inputs. if differ (value inputs gates.old x) (value inputs gates.old y) then value inputs gates.old y else value inputs gates.old before)) }
    ensures keeps { Keeps gates.old gates.new }
{
    let below = both(gates, x.not(), y)?;
    let up_to = either(gates, x.not(), y)?;
    let passed = both(gates, before, up_to)?;
    either(gates, below, passed)
}

/// Whether two bits agree and a gate is true besides.
#[tactic(auto, using(gate_core::proofs::Values::growing))]
fn and_agree(gates: &mut Gates, x: Gate, y: Gate, before: Gate) -> Result<Gate, NoMemory>
    requires left { IsOf gates.old x }
    requires right { IsOf gates.old y }
    requires before { IsOf gates.old before }
    ensures truth { IfOk result (IsTruth gates.new (λ inputs. value inputs gates.old before && not (differ (value inputs gates.old x) (value inputs gates.old y)))) }
    ensures keeps { Keeps gates.old gates.new }
{
    let apart = exclusive_or(gates, x, y)?;
    both(gates, before, apart.not())
}

/// Whether the first `count` places of one list show a lower number than those of another.
#[tactic(auto, using(gate_core::proofs::Values::growing))]
fn below_low(gates: &mut Gates, a: &[Gate], b: &[Gate], count: usize) -> Result<Gate, NoMemory>
    requires left { All (IsOf gates.old) a.now }
    requires right { All (IsOf gates.old) b.now }
    requires in_a { count ≤ length a.now }
    requires in_b { count ≤ length b.now }
    ensures tested { IfOk result (IsTested (λ n m. nat_lt n m) gates.old gates.new a.now b.now count) }
    ensures keeps { Keeps gates.old gates.new }
{
    let mut below = gates.constant(false);
    for place in 0..count {
        let x = a[place];
        let y = b[place];
        below = borrow(gates, x, y, below)?;
    }
    Ok(below)
}

/// Whether the first `count` places of two lists show one number.
#[tactic(auto, using(gate_core::proofs::Values::growing))]
fn same_low(gates: &mut Gates, a: &[Gate], b: &[Gate], count: usize) -> Result<Gate, NoMemory>
    requires left { All (IsOf gates.old) a.now }
    requires right { All (IsOf gates.old) b.now }
    requires in_a { count ≤ length a.now }
    requires in_b { count ≤ length b.now }
    ensures tested { IfOk result (IsTested (λ n m. n == m) gates.old gates.new a.now b.now count) }
    ensures keeps { Keeps gates.old gates.new }
{
    let mut same = gates.constant(true);
    for place in 0..count {
        let x = a[place];
        let y = b[place];
        same = and_agree(gates, x, y, same)?;
    }
    Ok(same)
}

/// Whether the first number is below the second, both in two's complement of one width, lowest bit
/// first. It costs four nodes for each bit.
#[tactic(auto, using(gate_core::proofs::Values::growing))]
pub fn below(gates: &mut Gates, a: &[Gate], b: &[Gate]) -> Result<Gate, NoMemory>
    requires left { All (IsOf gates.old) a.now }
    requires right { All (IsOf gates.old) b.now }
    requires some { 0 < length a.now }
    requires wide { length b.now ≡ length a.now }
    ensures below { IfOk result (IsTruth gates.new (λ inputs. int_lt (shown gates.old a.now inputs) (shown gates.old b.now inputs))) }
    ensures keeps { Keeps gates.old gates.new }
{
    let top = a.len() - 1;
    let low = below_low(gates, a, b, top)?;
    let x = a[top];
    let y = b[top];
    // the sign counts down
    let gate = borrow(gates, y, x, low)?;
    Ok(gate)
}

/// Whether two numbers in two's complement of one width are the same, lowest bit first. It costs four
/// nodes for each bit.
#[tactic(auto, using(gate_core::proofs::Values::growing))]
pub fn same(gates: &mut Gates, a: &[Gate], b: &[Gate]) -> Result<Gate, NoMemory>
    requires left { All (IsOf gates.old) a.now }
    requires right { All (IsOf gates.old) b.now }
    requires some { 0 < length a.now }
    requires wide { length b.now ≡ length a.now }
    ensures same { IfOk result (IsTruth gates.new (λ inputs. int_eq (shown gates.old a.now inputs) (shown gates.old b.now inputs))) }
    ensures keeps { Keeps gates.old gates.new }
{
    let top = a.len() - 1;
    let low = same_low(gates, a, b, top)?;
    let x = a[top];
    let y = b[top];
    let gate = and_agree(gates, x, y, low)?;
    Ok(gate)
}
