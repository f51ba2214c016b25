//! A variable that has the value with which those of its kind begin.

ghost use Rattle.std.specs.Prelude.{◌≡◌, List, Some, IfOk, slice_get};
ghost use Rattle.taco_unit.specs.declared.kind.Kind.{Kind as TheKind};
ghost use Rattle.heap_core.specs.Posed.{Posed};
ghost use Rattle.dyn_steps.specs.Paths.{HasZero};

use crate::equations::is_this_constant;
use crate::setting::slot;
use heap_core::zero_of;
use no_memory::NoMemory;
use rel_core::Formula;
use sqlite_items::Boxed;
use std::alloc::Global;
use taco_unit::Kind;

/// A variable of a kind is 0, false or null at an index. Constant in time.
pub fn has_zero(
    alloc: Global,
    kind: Kind,
    variable: u16,
    index: u32,
) -> Result<Boxed<Formula>, NoMemory>
    ensures { IfOk result (λ r. (p : Posed) (kinds : List TheKind) → slice_get kinds variable ≡ Some kind → HasZero p kinds kind variable index r) }
{
    let relation = slot(variable, index);
    let zero = zero_of(kind);
    let same = is_this_constant(alloc, relation, zero)?;
    Ok(same)
}
