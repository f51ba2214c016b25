//! Tests of flags, and formulas that say that a relation is the same at two indices.

ghost use Rattle.std.specs.Prelude.{◌≡◌, IfOk, IsTrue, List, is_some, slice_get};
ghost use Rattle.heap_core.specs.Outcomes.{is_null, same_flag};
ghost use Rattle.heap_core.specs.Posed.{Posed};
ghost use Rattle.taco_unit.specs.declared.kind.Kind.{Kind as TheKind};
ghost use Rattle.rel_core.specs.Reading.{Reading};
ghost use Rattle.rel_core.specs.Meaning.{holds, is_changed};
ghost use Rattle.rel_core.specs.Uses.{Kinds, can_change, is_sorted, use_of};
ghost use Rattle.dyn_steps.specs.Paths.{IsSameness, IsTest};

use crate::equations::{is_this_flag, same_variable};
use crate::part::{Front, Part};
use crate::setting::{kind_of, slot};
use no_memory::NoMemory;
use rel_core::{Formula, RelExpr, RelVar, What};
use sqlite_items::Boxed;
use std::alloc::Global;
use taco_unit::Kind;

/// The part that goes on exactly where a flag has this value. Constant in time.
pub fn test(alloc: Global, from: Front, flag: u16, wanted: bool) -> Result<Part, NoMemory>
    ensures { IfOk result (λ r. (p : Posed) (kinds : List TheKind) → IsTest p kinds flag wanted from r) }
{
    let variable = from.at.slot(flag);
    let formula = is_this_flag(alloc, variable, wanted)?;
    Ok(Part { formula, end: from })
}

/// One relation is another, at every place.
fn is_copy(alloc: Global, new: RelVar, old: RelVar) -> Result<Boxed<Formula>, NoMemory>
    ensures meaning { IfOk result (λ r. (m : Reading) → holds r m ≡ is_changed m new is_null old old) }
    ensures sorted { IfOk result (λ r. (p : Posed) (kinds : Kinds) → IsTrue (can_change p kinds new old old) → IsTrue (is_sorted p kinds r)) }
{
    let nothing = RelExpr::nil(alloc)?;
    let same = Formula::changed(alloc, new, nothing, old, old)?;
    Ok(same)
}

/// A relation that has a use is the same at two indices. Constant in time.
pub fn same_relation(
    alloc: Global,
    kinds: &[Kind],
    what: What,
    new: u32,
    old: u32,
) -> Result<Boxed<Formula>, NoMemory>
    ensures { IfOk result (λ r. (p : Posed) → IsTrue (is_some (use_of p (slice_get kinds.now) what)) → IsSameness p kinds.now what new old r) }
{
    match what {
        What::Slot(variable) => {
            let kind = kind_of(kinds, variable);
            let left = slot(variable, new);
            let right = slot(variable, old);
            let same = same_variable(alloc, kind, left, right)?;
            Ok(same)
        }
        _ => {
            let left = RelVar { what, index: new };
            let right = RelVar { what, index: old };
            let same = is_copy(alloc, left, right)?;
            Ok(same)
        }
    }
}
