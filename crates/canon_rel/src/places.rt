//! Places that hold references, and what formulas say of them.

ghost use Rattle.std.specs.Prelude.{◌≡◌, ◌<◌, nat_lt, IfOk, IsTrue};
ghost use Rattle.heap_core.specs.Posed.{Posed};
ghost use Rattle.rel_core.specs.Reading.{Reading};
ghost use Rattle.rel_core.specs.Meaning.{holds, set_of};
ghost use Rattle.rel_core.specs.Uses.{Kinds, is_sorted, is_sorted_set};

use no_memory::NoMemory;
use rel_core::{Formula, RelExpr, RelVar};
use sqlite_items::Boxed;
use std::alloc::Global;

/// A place that holds references.
#[derive(Clone, Copy)]
pub(crate) enum Place {
    /// A program variable.
    Variable(RelVar),
    /// A field of the object of this number.
    Field(RelVar, u8),
}

impl Place {
    ghost use Rattle.canon_rel.specs.Places.{refs_at, is_within, is_sorted_place};
    ghost use Rattle.canon_rel.specs.Order.{has_at};

    /// The references at the place, as a set.
    pub(crate) fn set(self, alloc: Global) -> Result<Boxed<RelExpr>, NoMemory>
        ensures meaning { IfOk result (λ e. (m : Reading) → IsTrue (is_within m.objects self) → set_of e m ≡ refs_at m self) }
        ensures sorted { IfOk result (λ e. (p : Posed) (kinds : Kinds) → IsTrue (is_sorted_place p kinds self) → IsTrue (is_sorted_set p kinds e)) }
    {
        match self {
            Place::Variable(relation) => {
                let set = RelExpr::variable(alloc, relation)?;
                Ok(set)
            }
            Place::Field(relation, object) => {
                let one = RelExpr::object(alloc, object)?;
                let set = RelExpr::join(alloc, one, relation)?;
                Ok(set)
            }
        }
    }

    /// The object of this number is at the place.
    pub(crate) fn has_object(self, alloc: Global, object: u8) -> Result<Boxed<Formula>, NoMemory>
        ensures meaning { IfOk result (λ f. (m : Reading) → IsTrue (is_within m.objects self) → object < m.objects → holds f m ≡ has_at m object self) }
        ensures sorted { IfOk result (λ f. (p : Posed) (kinds : Kinds) → IsTrue (is_sorted_place p kinds self) → IsTrue (nat_lt object p.scope.objects) → IsTrue (is_sorted p kinds f)) }
    {
        let one = RelExpr::object(alloc, object)?;
        let set = self.set(alloc)?;
        let at_place = Formula::subset(alloc, one, set)?;
        Ok(at_place)
    }
}
