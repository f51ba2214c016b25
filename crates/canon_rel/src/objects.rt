//! What formulas say of one object: that it is there, and of which class it is.

ghost use Rattle.std.specs.Prelude.{◌≡◌, ◌<◌, nat_lt, IfOk, IsTrue};
ghost use Rattle.heap_core.specs.Posed.{Posed};
ghost use Rattle.rel_core.specs.Reading.{Reading};
ghost use Rattle.rel_core.specs.Meaning.{holds};
ghost use Rattle.rel_core.specs.Uses.{Kinds, is_sorted};
ghost use Rattle.rel_core.specs.Shown.{live_relation};
ghost use Rattle.rel_core.specs.Laws.{is_of_shown};
ghost use Rattle.canon_rel.specs.Shape.{is_next as is_next_lem};

use no_memory::NoMemory;
use rel_core::{Formula, Indices, RelExpr};
use sqlite_items::Boxed;
use std::alloc::Global;

/// The object is there.
pub(crate) fn is_live(alloc: Global, at: &Indices, object: u8) -> Result<Boxed<Formula>, NoMemory>
    ensures meaning { IfOk result (λ f. (m : Reading) → object < m.objects → holds f m ≡ m.flag (live_relation at.now) object) }
    ensures sorted { IfOk result (λ f. (p : Posed) (kinds : Kinds) → IsTrue (nat_lt object p.scope.objects) → IsTrue (is_sorted p kinds f)) }
{
    let one = RelExpr::object(alloc, object)?;
    let live = Formula::flag_at(alloc, one, at.live())?;
    Ok(live)
}

/// The object is there, and it is of the class.
pub(crate) fn is_of(
    alloc: Global,
    at: &Indices,
    object: u8,
    class: u8,
) -> Result<Boxed<Formula>, NoMemory>
    ensures meaning { IfOk result (λ f. (m : Reading) → object < m.objects → holds f m ≡ is_of_shown m at.now class object) }
    ensures sorted { IfOk result (λ f. (p : Posed) (kinds : Kinds) → IsTrue (nat_lt object p.scope.objects) → IsTrue (is_sorted p kinds f)) }
{
    let live = is_live(alloc, at, object)?;
    let one = RelExpr::object(alloc, object)?;
    let class = Formula::is_class(alloc, one, class, at.class())?;
    let of = Formula::both(alloc, live, class)?;
    Ok(of)
}

/// The object is there only where the one before it is.
pub(crate) fn is_next(alloc: Global, at: &Indices, object: u8) -> Result<Boxed<Formula>, NoMemory>
    ensures meaning { IfOk result (λ f. (m : Reading) → object < m.objects → holds f m ≡ is_next_lem at.now m object) }
    ensures sorted { IfOk result (λ f. (p : Posed) (kinds : Kinds) → IsTrue (nat_lt object p.scope.objects) → IsTrue (is_sorted p kinds f)) }
{
    if object == 0 {
        let always = Formula::constant(alloc, true)?;
        return Ok(always);
    }
    let here = is_live(alloc, at, object)?;
    let before = is_live(alloc, at, object - 1)?;
    let next = Formula::implies(alloc, here, before)?;
    Ok(next)
}
