ghost use Rattle.std.specs.Prelude.{◌≡◌, IfOk, IsTrue};
ghost use Rattle.heap_core.specs.Posed.{Posed};
ghost use Rattle.rel_core.specs.Uses.{Kinds, is_sorted, is_sorted_number, is_sorted_set};

use no_memory::NoMemory;
use rel_core::{Formula, NumExpr, RelExpr};
use sqlite_items::Boxed;
use std::alloc::Global;

/// The same set once more.
pub(crate) fn set_copy(alloc: Global, set: &Boxed<RelExpr>) -> Result<Boxed<RelExpr>, NoMemory>
    ensures same { IfOk result (λ r. r ≡ set.now) }
    ensures sorted { IfOk result (λ r. (p : Posed) (kinds : Kinds) → IsTrue (is_sorted_set p kinds set.now) → IsTrue (is_sorted_set p kinds r)) }
{
    let copied = set.get().copy(alloc)?;
    Ok(copied)
}

/// The same number once more.
pub(crate) fn number_copy(
    alloc: Global,
    number: &Boxed<NumExpr>,
) -> Result<Boxed<NumExpr>, NoMemory>
    ensures same { IfOk result (λ r. r ≡ number.now) }
    ensures sorted { IfOk result (λ r. (p : Posed) (kinds : Kinds) → IsTrue (is_sorted_number p kinds number.now) → IsTrue (is_sorted_number p kinds r)) }
{
    let copied = number.get().copy(alloc)?;
    Ok(copied)
}

/// The same formula once more.
pub(crate) fn formula_copy(
    alloc: Global,
    formula: &Boxed<Formula>,
) -> Result<Boxed<Formula>, NoMemory>
    ensures same { IfOk result (λ r. r ≡ formula.now) }
    ensures sorted { IfOk result (λ r. (p : Posed) (kinds : Kinds) → IsTrue (is_sorted p kinds formula.now) → IsTrue (is_sorted p kinds r)) }
{
    let copied = formula.get().copy(alloc)?;
    Ok(copied)
}
