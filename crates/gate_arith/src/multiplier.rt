ghost use Rattle.std.specs.Prelude.{◌≡◌, ℕ, ◌<◌, ◌∷◌, All, length, slice_index_or, Bool, not, IfOk, pos, ℤ, vec_len, ◌-◌, ◌+◌, ◌+ℤ◌, ◌*ℤ◌, if◌then◌else◌};
ghost use Rattle.gate_core.specs.Circuit.{value, IsOf, Keeps};
ghost use Rattle.gate_arith.specs.Numbers.{differ};
ghost use Rattle.gate_arith.specs.Operations.{shown, high, doubled_with, IsTruth, IsNumber};

use crate::adder::{difference, sum};
use crate::choose::{repeated, select};
use crate::logic::{both, exclusive_or};
use gate_core::{Gate, Gates};
use no_memory::NoMemory;
use std::alloc::Global;

/// Whether two gates agree.
#[tactic(auto, using(gate_core::proofs::Values::growing))]
fn agree(gates: &mut Gates, x: Gate, y: Gate) -> Result<Gate, NoMemory>
    requires left { IsOf gates.old x }
    requires right { IsOf gates.old y }
    ensures truth { IfOk result (IsTruth gates.new (λ inputs. not (differ (value inputs gates.old x) (value inputs gates.old y)))) }
    ensures keeps { Keeps gates.old gates.new }
{
    let apart = exclusive_or(gates, x, y)?;
    Ok(apart.not())
}

/// A gate in front of others.
fn in_front(alloc: Global, first: Gate, gates: &[Gate]) -> Result<Vec<Gate>, NoMemory>
    ensures { IfOk result (λ r. r.items ≡ first ∷ gates.now) }
{
    let mut all = Vec::with_capacity(alloc, gates.len())?;
    all.push(first)?;
    all.extend_from_slice(gates)?;
    Ok(all)
}

/// A number doubled, and the factor added where its bit is set, at one bit more.
#[tactic(auto, using(gate_core::proofs::Values::growing, crate::proofs::Counts::zeros_of))]
fn double_and_add(
    alloc: Global,
    gates: &mut Gates,
    number: &[Gate],
    a: &[Gate],
    bit: Gate,
) -> Result<(Vec<Gate>, Gate), NoMemory>
    requires number { All (IsOf gates.old) number.now }
    requires factor { All (IsOf gates.old) a.now }
    requires bit { IsOf gates.old bit }
    requires some { 0 < length a.now }
    requires wide { length number.now ≡ length a.now }
    ensures sum { IfOk result (λ r. IsNumber gates.new (length a.now + 1) (doubled_with gates.old bit a.now number.now) r.0.items r.1) }
    ensures keeps { Keeps gates.old gates.new }
{
    let none = gates.constant(false);
    let zeros = repeated(alloc, none, a.len())?;
    let mut addend = select(alloc, gates, bit, a, &zeros)?;
    let sign = addend[a.len() - 1];
    addend.push(sign)?;
    let double = in_front(alloc, none, number)?;
    let total = sum(alloc, gates, &double, &addend)?;
    Ok(total)
}

/// The bits but the last of a number, with a gate that says whether it lies within one bit less.
#[tactic(auto, using(gate_core::proofs::Values::growing))]
fn narrow(gates: &mut Gates, mut wide: Vec<Gate>, fits: Gate) -> Result<(Vec<Gate>, Gate), NoMemory>
    requires bits { All (IsOf gates.old) wide.items }
    requires fits { IsOf gates.old fits }
    requires some { 1 < vec_len wide }
    ensures narrow { IfOk result (λ r. (exact : (ℕ → Bool) → ℤ) → IsNumber gates.old (vec_len wide) exact wide.items fits → IsNumber gates.new (vec_len wide - 1) exact r.0.items r.1) }
    ensures keeps { Keeps gates.old gates.new }
{
    let width = wide.len() - 1;
    let low = wide[width - 1];
    let high = wide[width];
    let agrees = agree(gates, low, high)?;
    let within = both(gates, fits, agrees)?;
    wide.truncate(width);
    Ok((wide, within))
}

/// One step of a product: the number is doubled, and the factor added where its bit is set. It costs
/// eight nodes for each bit.
#[tactic(auto, using(gate_core::proofs::Values::growing))]
fn step(
    alloc: Global,
    gates: &mut Gates,
    number: &[Gate],
    a: &[Gate],
    bit: Gate,
) -> Result<(Vec<Gate>, Gate), NoMemory>
    requires number { All (IsOf gates.old) number.now }
    requires factor { All (IsOf gates.old) a.now }
    requires bit { IsOf gates.old bit }
    requires some { 0 < length a.now }
    requires wide { length number.now ≡ length a.now }
    ensures step { IfOk result (λ r. IsNumber gates.new (length a.now) (doubled_with gates.old bit a.now number.now) r.0.items r.1) }
    ensures keeps { Keeps gates.old gates.new }
{
    let (wide, fits) = double_and_add(alloc, gates, number, a, bit)?;
    let number = narrow(gates, wide, fits)?;
    Ok(number)
}

/// The product with the sign of the second factor alone: the first factor, negated, where it is set.
#[tactic(auto, using(gate_core::proofs::Values::growing, crate::proofs::Counts::zeros_of))]
fn with_sign(
    alloc: Global,
    gates: &mut Gates,
    a: &[Gate],
    b: &[Gate],
) -> Result<(Vec<Gate>, Gate), NoMemory>
    requires left { All (IsOf gates.old) a.now }
    requires right { All (IsOf gates.old) b.now }
    requires some { 0 < length a.now }
    requires wide { length b.now ≡ length a.now }
    ensures number { IfOk result (λ r. IsNumber gates.new (length a.now) (λ inputs. shown gates.old a.now inputs *ℤ high gates.old b.now (length a.now - 1) inputs) r.0.items r.1) }
    ensures keeps { Keeps gates.old gates.new }
{
    let none = gates.constant(false);
    let zeros = repeated(alloc, none, a.len())?;
    let sign = b[a.len() - 1];
    let masked = select(alloc, gates, sign, a, &zeros)?;
    let number = difference(alloc, gates, &zeros, &masked)?;
    Ok(number)
}

/// The product of two numbers in two's complement of one width, lowest bit first, and a gate that says
/// whether it lies within the width. The second factor is gone through from its sign down: a product
/// with its higher bits leaves the width only where the whole one does, so no more than one bit besides
/// the width is kept. For w bits it costs about 8 w w nodes.
#[tactic(auto, using(gate_core::proofs::Values::growing))]
pub fn product(
    alloc: Global,
    gates: &mut Gates,
    a: &[Gate],
    b: &[Gate],
) -> Result<(Vec<Gate>, Gate), NoMemory>
    requires left { All (IsOf gates.old) a.now }
    requires right { All (IsOf gates.old) b.now }
    requires some { 0 < length a.now }
    requires wide { length b.now ≡ length a.now }
    ensures product { IfOk result (λ r. IsNumber gates.new (length a.now) (λ inputs. shown gates.old a.now inputs *ℤ shown gates.old b.now inputs) r.0.items r.1) }
    ensures keeps { Keeps gates.old gates.new }
{
    let (mut number, mut within) = with_sign(alloc, gates, a, b)?;
    let mut place = a.len() - 1;
    while place > 0 {
        place -= 1;
        let bit = b[place];
        let (next, fits) = step(alloc, gates, &number, a, bit)?;
        within = both(gates, within, fits)?;
        number = next;
    }
    Ok((number, within))
}
