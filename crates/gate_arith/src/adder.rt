ghost use Rattle.std.specs.Prelude.{◌≡◌, ℕ, ◌<◌, Bool, All, length, IfOk, map, pos, ◌+ℤ◌, ◌-ℤ◌};
ghost use Rattle.gate_core.specs.Circuit.{value, negation, IsOf, Keeps};
ghost use Rattle.gate_arith.specs.Numbers.{bit};
ghost use Rattle.gate_arith.specs.Operations.{shown, IsNumber};
ghost use Rattle.gate_arith.specs.Ripple.{IsPartial};

use crate::logic::{exclusive_or, full_add};
use gate_core::{Gate, Gates};
use no_memory::NoMemory;
use std::alloc::Global;

/// The bits of the sum of two lists of bits and a carry, and the carry behind them.
#[tactic(auto, using(gate_core::proofs::Values::growing, crate::proofs::Ripple::partial_none))]
pub(crate) fn ripple(
    alloc: Global,
    gates: &mut Gates,
    a: &[Gate],
    b: &[Gate],
    first: Gate,
) -> Result<(Vec<Gate>, Gate), NoMemory>
    requires left { All (IsOf gates.old) a.now }
    requires right { All (IsOf gates.old) b.now }
    requires first { IsOf gates.old first }
    requires wide { length b.now ≡ length a.now }
    ensures sum { IfOk result (λ r. IsPartial gates.old gates.new a.now b.now first (length a.now) r.0.items r.1) }
    ensures keeps { Keeps gates.old gates.new }
{
    let mut sum = Vec::with_capacity(alloc, a.len())?;
    let mut carry = first;
    for place in 0..a.len() {
        let (bit, next) = full_add(gates, a[place], b[place], carry)?;
        sum.push(bit)?;
        carry = next;
    }
    Ok((sum, carry))
}

/// The sum of two numbers of one width and a carry.
#[tactic(auto, using(gate_core::proofs::Values::growing))]
fn add(
    alloc: Global,
    gates: &mut Gates,
    a: &[Gate],
    b: &[Gate],
    carry: Gate,
) -> Result<(Vec<Gate>, Gate), NoMemory>
    requires left { All (IsOf gates.old) a.now }
    requires right { All (IsOf gates.old) b.now }
    requires carry { IsOf gates.old carry }
    requires some { 0 < length a.now }
    requires wide { length b.now ≡ length a.now }
    ensures sum { IfOk result (λ r. IsNumber gates.new (length a.now) (λ inputs. shown gates.old a.now inputs +ℤ shown gates.old b.now inputs +ℤ pos (bit (value inputs gates.old carry))) r.0.items r.1) }
    ensures keeps { Keeps gates.old gates.new }
{
    let top = a.len() - 1;
    let (low_a, _) = a.split_at(top);
    let (low_b, _) = b.split_at(top);
    let (mut sum, into) = ripple(alloc, gates, low_a, low_b, carry)?;
    let (sign, out) = full_add(gates, a[top], b[top], into)?;
    sum.push(sign)?;
    let wraps = exclusive_or(gates, into, out)?;
    Ok((sum, wraps.not()))
}

/// The sum of two numbers in two's complement of one width, lowest bit first, and a gate that says
/// whether it lies within the width. It costs seven nodes for each bit and three more.
pub fn sum(
    alloc: Global,
    gates: &mut Gates,
    a: &[Gate],
    b: &[Gate],
) -> Result<(Vec<Gate>, Gate), NoMemory>
    requires left { All (IsOf gates.old) a.now }
    requires right { All (IsOf gates.old) b.now }
    requires some { 0 < length a.now }
    requires wide { length b.now ≡ length a.now }
    ensures sum { IfOk result (λ r. IsNumber gates.new (length a.now) (λ inputs. shown gates.old a.now inputs +ℤ shown gates.old b.now inputs) r.0.items r.1) }
    ensures keeps { Keeps gates.old gates.new }
{
    let none = gates.constant(false);
    let number = add(alloc, gates, a, b, none)?;
    Ok(number)
}

/// The negations of gates.
fn opposites(alloc: Global, gates: &[Gate]) -> Result<Vec<Gate>, NoMemory>
    ensures { IfOk result (λ r. r.items ≡ map negation gates.now) }
{
    let mut opposites = Vec::with_capacity(alloc, gates.len())?;
    for gate in gates {
        opposites.push(gate.not())?;
    }
    Ok(opposites)
}

/// The difference of two numbers in two's complement of one width, lowest bit first, and a gate that
/// says whether it lies within the width. It costs seven nodes for each bit and three more.
pub fn difference(
    alloc: Global,
    gates: &mut Gates,
    a: &[Gate],
    b: &[Gate],
) -> Result<(Vec<Gate>, Gate), NoMemory>
    requires left { All (IsOf gates.old) a.now }
    requires right { All (IsOf gates.old) b.now }
    requires some { 0 < length a.now }
    requires wide { length b.now ≡ length a.now }
    ensures difference { IfOk result (λ r. IsNumber gates.new (length a.now) (λ inputs. shown gates.old a.now inputs -ℤ shown gates.old b.now inputs) r.0.items r.1) }
    ensures keeps { Keeps gates.old gates.new }
{
    let one = gates.constant(true);
    let opposite = opposites(alloc, b)?;
    let number = add(alloc, gates, a, &opposite, one)?;
    Ok(number)
}
