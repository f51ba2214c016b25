ghost use Rattle.std.specs.Prelude.{◌≡◌, ◌<◌, All, IfOk, pos};
ghost use Rattle.gate_core.specs.Circuit.{IsOf, Keeps};
ghost use Rattle.gate_arith.specs.Numbers.{how_many};
ghost use Rattle.gate_arith.specs.Operations.{bits as bits_of, IsNumber};

use crate::adder::ripple;
use crate::choose::repeated;
use crate::logic::either;
use gate_core::{Gate, Gates};
use no_memory::NoMemory;
use std::alloc::Global;

/// How many of the bits are true, as a number in two's complement of a width, lowest bit first, and a
/// gate that says whether it lies within the width. For n bits it costs at most three nodes for each
/// bit and place that the count can have reached, so about 3 n log n.
#[tactic(auto, using(gate_core::proofs::Values::growing, crate::proofs::Counts::counted_none, crate::proofs::Counts::zeros_of))]
pub fn count(
    alloc: Global,
    gates: &mut Gates,
    bits: &[Gate],
    width: u8,
) -> Result<(Vec<Gate>, Gate), NoMemory>
    requires bits { All (IsOf gates.old) bits.now }
    requires width { 0 < width }
    ensures count { IfOk result (λ r. IsNumber gates.new width (λ inputs. pos (how_many (bits_of inputs gates.old bits.now))) r.0.items r.1) }
    ensures keeps { Keeps gates.old gates.new }
{
    let none = gates.constant(false);
    let places = usize::from(width) - 1;
    let zeros = repeated(alloc, none, places)?;
    let mut low = repeated(alloc, none, places)?;
    let mut over = none;
    for place in 0..bits.len() {
        let bit = bits[place];
        let (next, carry) = ripple(alloc, gates, &low, &zeros, bit)?;
        over = either(gates, over, carry)?;
        low = next;
    }
    low.push(none)?;
    Ok((low, over.not()))
}
