ghost use Rattle.std.specs.Prelude.{◌≡◌, ℕ, ◌+◌, ◌*◌, ◌<◌, ◌≤◌, ◌&&◌, Bool, All, length, slice_index_or, IfOk, List};
ghost use Rattle.gate_core.specs.declared.circuit.Node.{Node};
ghost use Rattle.gate_core.specs.Circuit.{IsOf, Keeps};
ghost use Rattle.gate_arith.specs.Operations.{IsTruth};
ghost use Rattle.gate_sets.specs.Lists.{at, in_row, AreTruths};
ghost use Rattle.gate_sets.specs.Shapes.{any_row, is_within};

use gate_arith::{both, either};
use gate_core::{Gate, Gates};
use no_memory::NoMemory;
use std::alloc::Global;

/// One of rows of one width.
pub(crate) fn row(rows: &[Gate], width: usize, place: usize) -> &[Gate]
    requires { place * width + width ≤ length rows.now }
    ensures wide { length result.now ≡ width }
    ensures gates { (i : ℕ) → i < width → slice_index_or result.now i 0 ≡ slice_index_or rows.now (place * width + i) 0 }
    ensures of { (nodes : List Node) → All (IsOf nodes) rows.now → All (IsOf nodes) result.now }
{
    let (_, behind) = rows.split_at(place * width);
    let (row, _) = behind.split_at(width);
    row
}

/// Whether a row that is chosen has a place.
#[tactic(auto, using(gate_core::proofs::Values::growing, crate::proofs::Standing::reading, std::proofs::lemmas::Nat::rows))]
fn any_chosen(
    gates: &mut Gates,
    chosen: &[Gate],
    rows: &[Gate],
    width: usize,
    place: usize,
) -> Result<Gate, NoMemory>
    requires chosen { All (IsOf gates.old) chosen.now }
    requires rows { All (IsOf gates.old) rows.now }
    requires long { length rows.now ≡ length chosen.now * width }
    requires place { place < width }
    ensures truth { IfOk result (IsTruth gates.new (λ inputs. any_row (length chosen.now) (at gates.old chosen.now inputs) (in_row width gates.old rows.now inputs) place)) }
    ensures keeps { Keeps gates.old gates.new }
{
    let mut found = gates.constant(false);
    for number in 0..chosen.len() {
        let choice = chosen[number];
        let start = number * width + place;
        let gate = rows[start];
        let here = both(gates, choice, gate)?;
        found = either(gates, found, here)?;
    }
    Ok(found)
}

/// The places that some row has that is chosen: of so many rows of one width, one behind the other,
/// each with a gate that says whether it is chosen. Two nodes for each gate of the rows.
#[tactic(auto, using(gate_core::proofs::Values::growing, crate::proofs::Places::truths_none))]
pub(crate) fn joined(
    alloc: Global,
    gates: &mut Gates,
    chosen: &[Gate],
    rows: &[Gate],
    width: usize,
) -> Result<Vec<Gate>, NoMemory>
    requires chosen { All (IsOf gates.old) chosen.now }
    requires rows { All (IsOf gates.old) rows.now }
    requires long { length rows.now ≡ length chosen.now * width }
    ensures joined { IfOk result (λ r. AreTruths gates.new width (λ inputs i. any_row (length chosen.now) (at gates.old chosen.now inputs) (in_row width gates.old rows.now inputs) i) r.items) }
    ensures keeps { Keeps gates.old gates.new }
{
    let mut joined = Vec::with_capacity(alloc, width)?;
    for place in 0..width {
        let gate = any_chosen(gates, chosen, rows, width, place)?;
        joined.push(gate)?;
    }
    Ok(joined)
}

/// Whether each place that one list has, another of its length has too: inclusion of sets, null and
/// all objects. Two nodes for each place.
#[tactic(auto, using(gate_core::proofs::Values::growing, crate::proofs::Standing::reading))]
pub fn within(gates: &mut Gates, a: &[Gate], b: &[Gate]) -> Result<Gate, NoMemory>
    requires left { All (IsOf gates.old) a.now }
    requires right { All (IsOf gates.old) b.now }
    requires wide { length b.now ≡ length a.now }
    ensures within { IfOk result (IsTruth gates.new (λ inputs. is_within (length a.now) (at gates.old a.now inputs) (at gates.old b.now inputs))) }
    ensures keeps { Keeps gates.old gates.new }
{
    let mut every = gates.constant(true);
    for place in 0..a.len() {
        let x = a[place];
        let y = b[place];
        let here = either(gates, x.not(), y)?;
        every = both(gates, every, here)?;
    }
    Ok(every)
}
