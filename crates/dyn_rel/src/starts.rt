//! What stands in the variables when a run begins.

ghost use Rattle.std.specs.Prelude.{IfOk};
ghost use Rattle.heap_core.specs.Posed.{Posed};
ghost use Rattle.dyn_rel.specs.Starts.{SaysRestZero, StartsAreStates};

use crate::joining::variable_number;
use dyn_steps::has_zero;
use no_memory::NoMemory;
use rel_core::Formula;
use sqlite_items::{Boxed, Items};
use std::alloc::Global;
use taco_unit::Kind;

/// Each variable that has a kind, from a number on, is 0, false or null at index 0. Linear in these variables.
pub fn rest_is_zero(alloc: Global, kinds: &[Kind], from: u16) -> Result<Boxed<Formula>, NoMemory>
    ensures { IfOk result (λ r. (p : Posed) → SaysRestZero p kinds.now from r) }
{
    let mut parts = Items::new(alloc);
    for place in usize::from(from)..kinds.len() {
        let variable = variable_number(place)?;
        let zero = has_zero(alloc, kinds[place], variable, 0)?;
        parts.push(zero.into_inner())?;
    }
    let all = Formula::all(alloc, parts)?;
    Ok(all)
}

/// A law of the definitions: of a start that fits there is one state with its objects, its arguments, its receiver (null
/// where the method is static) and zeros behind them. It has the kinds, and a reading shows the start, with zeros behind
/// it, exactly where it shows this state.
pub fn starts_are_states()
    ensures { StartsAreStates }
{}
