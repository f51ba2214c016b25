ghost use Rattle.std.specs.Prelude.{◌≡◌, IfOk, IsTrue, nat_lt};
ghost use Rattle.heap_core.specs.Posed.{Posed};
ghost use Rattle.rel_core.specs.Reading.{Reading};
ghost use Rattle.rel_core.specs.Meaning.{holds};
ghost use Rattle.rel_core.specs.Uses.{Kinds, is_sorted};
ghost use Rattle.rel_core.specs.Laws.{is_of_shown};

use no_memory::NoMemory;
use rel_core::{Formula, Indices, RelExpr};
use sqlite_items::Boxed;
use std::alloc::Global;

/// The object of this number is there, and of the class.
pub(crate) fn is_there(
    alloc: Global,
    at: &Indices,
    class: u8,
    object: u8,
) -> Result<Boxed<Formula>, NoMemory>
    ensures meaning { IfOk result (λ f. (m : Reading) → IsTrue (nat_lt object m.objects) → holds f m ≡ is_of_shown m at.now class object) }
    ensures sorted { IfOk result (λ f. (p : Posed) (kinds : Kinds) → IsTrue (nat_lt object p.scope.objects) → IsTrue (is_sorted p kinds f)) }
{
    let first = RelExpr::object(alloc, object)?;
    let live = Formula::flag_at(alloc, first, at.live())?;
    let second = RelExpr::object(alloc, object)?;
    let of = Formula::is_class(alloc, second, class, at.class())?;
    let both = Formula::both(alloc, live, of)?;
    Ok(both)
}
