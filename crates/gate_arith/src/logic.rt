ghost use Rattle.std.specs.Prelude.{◌≡◌, ℕ, ◌+◌, ◌*◌, ◌≤◌, Bool, ◌&&◌, ◌||◌, not, if◌then◌else◌, length, IfOk};
ghost use Rattle.gate_core.specs.Circuit.{value, IsOf, Keeps};
ghost use Rattle.gate_arith.specs.Numbers.{bit, differ};
ghost use Rattle.gate_arith.specs.Operations.{IsTruth, AddsBits};

use gate_core::{Gate, Gates};
use no_memory::NoMemory;

/// The conjunction of two gates. It costs one node.
#[tactic(auto, using(gate_core::proofs::Conjunctions::joins_few))]
pub fn both(gates: &mut Gates, a: Gate, b: Gate) -> Result<Gate, NoMemory>
    requires left { IsOf gates.old a }
    requires right { IsOf gates.old b }
    ensures truth { IfOk result (IsTruth gates.new (λ inputs. value inputs gates.old a && value inputs gates.old b)) }
    ensures keeps { Keeps gates.old gates.new }
    ensures nodes { length gates.new ≤ length gates.old + 1 }
{
    let gate = gates.and(a, b)?;
    Ok(gate)
}

/// The disjunction of two gates. It costs one node.
#[tactic(auto, using(gate_core::proofs::Conjunctions::joins_few))]
pub fn either(gates: &mut Gates, a: Gate, b: Gate) -> Result<Gate, NoMemory>
    requires left { IsOf gates.old a }
    requires right { IsOf gates.old b }
    ensures truth { IfOk result (IsTruth gates.new (λ inputs. value inputs gates.old a || value inputs gates.old b)) }
    ensures keeps { Keeps gates.old gates.new }
    ensures nodes { length gates.new ≤ length gates.old + 1 }
{
    let neither = gates.and(a.not(), b.not())?;
    Ok(neither.not())
}

/// The exclusive or of two gates: whether exactly one is true. It costs three nodes.
pub fn exclusive_or(gates: &mut Gates, a: Gate, b: Gate) -> Result<Gate, NoMemory>
    requires left { IsOf gates.old a }
    requires right { IsOf gates.old b }
    ensures truth { IfOk result (IsTruth gates.new (λ inputs. differ (value inputs gates.old a) (value inputs gates.old b))) }
    ensures keeps { Keeps gates.old gates.new }
    ensures nodes { length gates.new ≤ length gates.old + 3 }
{
    let all = both(gates, a, b)?;
    let some = either(gates, a, b)?;
    both(gates, some, all.not())
}

/// The choice of two gates: the first where the condition is true, and else the second. It costs three
/// nodes.
pub fn choice(gates: &mut Gates, condition: Gate, a: Gate, b: Gate) -> Result<Gate, NoMemory>
    requires condition { IsOf gates.old condition }
    requires left { IsOf gates.old a }
    requires right { IsOf gates.old b }
    ensures truth { IfOk result (IsTruth gates.new (λ inputs. if value inputs gates.old condition then value inputs gates.old a else value inputs gates.old b)) }
    ensures keeps { Keeps gates.old gates.new }
    ensures nodes { length gates.new ≤ length gates.old + 3 }
{
    let first = both(gates, condition, a)?;
    let second = both(gates, condition.not(), b)?;
    either(gates, first, second)
}

/// The sum of two bits: the bit of its place, and the carry to the next. It costs three nodes.
#[tactic(auto, using(crate::proofs::Bits::half_sum))]
pub(crate) fn half_add(gates: &mut Gates, a: Gate, b: Gate) -> Result<(Gate, Gate), NoMemory>
    requires left { IsOf gates.old a }
    requires right { IsOf gates.old b }
    ensures sum { IfOk result (λ r. AddsBits gates.new (λ inputs. bit (value inputs gates.old a) + bit (value inputs gates.old b)) r.0 r.1) }
    ensures keeps { Keeps gates.old gates.new }
{
    let sum = exclusive_or(gates, a, b)?;
    let carry = both(gates, a, b)?;
    Ok((sum, carry))
}

/// The sum of three bits: the bit of its place, and the carry to the next. It costs seven nodes.
#[tactic(auto, using(crate::proofs::Bits::full_sum))]
pub(crate) fn full_add(
    gates: &mut Gates,
    a: Gate,
    b: Gate,
    carry: Gate,
) -> Result<(Gate, Gate), NoMemory>
    requires left { IsOf gates.old a }
    requires right { IsOf gates.old b }
    requires carry { IsOf gates.old carry }
    ensures sum { IfOk result (λ r. AddsBits gates.new (λ inputs. bit (value inputs gates.old a) + bit (value inputs gates.old b) + bit (value inputs gates.old carry)) r.0 r.1) }
    ensures keeps { Keeps gates.old gates.new }
{
    let (half, first) = half_add(gates, a, b)?;
    let (sum, second) = half_add(gates, half, carry)?;
    let next = either(gates, first, second)?;
    Ok((sum, next))
}
