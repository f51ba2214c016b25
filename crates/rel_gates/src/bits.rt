//! Rows of gates as numbers without a sign.

ghost use Rattle.std.specs.Prelude.{◌≡◌, ℕ, ◌+◌, ◌*◌, ◌^◌, ◌<◌, ◌≤◌, ◌==◌, not, nat_lt, pos, Bool, List, All, length, IfOk};
ghost use Rattle.std.specs.List.{slice_index_or};
ghost use Rattle.gate_core.specs.declared.circuit.Node.{Node};
ghost use Rattle.gate_core.specs.Circuit.{IsOf, Keeps};
ghost use Rattle.gate_arith.specs.Numbers.{number};
ghost use Rattle.gate_arith.specs.Operations.{bits, shown, IsTruth};
ghost use Rattle.gate_sets.specs.Lists.{AreTruths};
ghost use Rattle.rel_gates.specs.Constants.{digit};

use gate_arith::{below, same};
use gate_core::{Gate, Gates};
use no_memory::NoMemory;
use std::alloc::Global;

/// One of rows of one width.
pub(crate) fn row(rows: &[Gate], width: usize, place: usize) -> &[Gate]
    requires { place * width + width ≤ length rows.now }
    ensures wide { length result.now ≡ width }
    ensures gates { (i : ℕ) → i < width → slice_index_or result.now i 0 ≡ slice_index_or rows.now (place * width + i) 0 }
    ensures of { (nodes : List Node) → All (IsOf nodes) rows.now → All (IsOf nodes) result.now }
{
    let (_, behind) = rows.split_at(place * width);
    let (row, _) = behind.split_at(width);
    row
}

/// The lowest bits of a number, as constants.
pub(crate) fn constant_bits(
    alloc: Global,
    gates: &Gates,
    number: u32,
    width: usize,
) -> Result<Vec<Gate>, NoMemory>
    ensures { IfOk result (λ r. AreTruths gates.now width (λ inputs i. digit number i) r.items) }
{
    let mut list = Vec::with_capacity(alloc, width)?;
    let mut rest = number;
    for _place in 0..width {
        list.push(gates.constant(rest % 2 == 1))?;
        rest /= 2;
    }
    Ok(list)
}

/// Bits with a sign behind them that is not set.
fn unsigned(alloc: Global, gates: &Gates, row: &[Gate]) -> Result<Vec<Gate>, NoMemory>
    requires { All (IsOf gates.now) row.now }
    ensures of { IfOk result (λ r. All (IsOf gates.now) r.items) }
    ensures wide { IfOk result (λ r. length r.items ≡ length row.now + 1) }
    ensures shown { IfOk result (λ r. (inputs : ℕ → Bool) → shown gates.now r.items inputs ≡ pos (number (bits inputs gates.now row.now))) }
{
    let mut list = Vec::with_capacity(alloc, row.len() + 1)?;
    list.extend_from_slice(row)?;
    list.push(gates.constant(false))?;
    Ok(list)
}

/// Whether the number of a row is the given one.
pub(crate) fn is_number(
    alloc: Global,
    gates: &mut Gates,
    row: &[Gate],
    wanted: u32,
) -> Result<Gate, NoMemory>
    requires row { All (IsOf gates.old) row.now }
    requires fits { wanted < 2 ^ length row.now }
    ensures truth { IfOk result (IsTruth gates.new (λ inputs. number (bits inputs gates.old row.now) == wanted)) }
    ensures keeps { Keeps gates.old gates.new }
{
    let constants = constant_bits(alloc, gates, wanted, row.len())?;
    let a = unsigned(alloc, gates, row)?;
    let b = unsigned(alloc, gates, &constants)?;
    let gate = same(gates, &a, &b)?;
    Ok(gate)
}

/// Whether the number of a row is at most the given one.
pub(crate) fn is_at_most(
    alloc: Global,
    gates: &mut Gates,
    row: &[Gate],
    most: u32,
) -> Result<Gate, NoMemory>
    requires row { All (IsOf gates.old) row.now }
    requires fits { most < 2 ^ length row.now }
    ensures truth { IfOk result (IsTruth gates.new (λ inputs. not (nat_lt most (number (bits inputs gates.old row.now))))) }
    ensures keeps { Keeps gates.old gates.new }
{
    let constants = constant_bits(alloc, gates, most, row.len())?;
    let number = unsigned(alloc, gates, row)?;
    let highest = unsigned(alloc, gates, &constants)?;
    let above = below(gates, &highest, &number)?;
    Ok(above.not())
}
