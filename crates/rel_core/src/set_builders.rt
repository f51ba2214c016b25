ghost use Rattle.std.specs.Prelude.{◌≡◌, IfOk, IsTrue, nat_lt};
ghost use Rattle.std.specs.List.{list_all};
ghost use Rattle.heap_core.specs.Outcomes.{is_null, is_object};
ghost use Rattle.heap_core.specs.Posed.{Posed};
ghost use Rattle.rel_core.specs.Reading.{Reading};
ghost use Rattle.rel_core.specs.Meaning.{joined, objects_only, reached_from, set_of};
ghost use Rattle.rel_core.specs.Uses.{Kinds, AsSet, is_sorted_set, is_spread, is_variable};

use crate::relation::RelVar;
use crate::sets::RelExpr;
use no_memory::NoMemory;
use sqlite_items::{Boxed, Items};
use std::alloc::Global;

/// The values of sets, by their forms. Each call is constant in time, and its result is sorted where its
/// parts are and the relation is used by its kind.
impl RelExpr {
    /// Null alone.
    #[tactic(auto, using(crate::proofs::Forms::set_nil, crate::proofs::Forms::sorted_set_nil))]
    pub fn nil(alloc: Global) -> Result<Boxed<RelExpr>, NoMemory>
        ensures meaning { IfOk result (λ e. (m : Reading) → set_of e m ≡ is_null) }
        ensures sorted { IfOk result (λ e. (p : Posed) (kinds : Kinds) → IsTrue (is_sorted_set p kinds e)) }
    {
        Ok(Boxed::new(alloc, RelExpr::Nil)?)
    }

    /// The object of this number alone.
    #[tactic(auto, using(crate::proofs::Forms::set_object, crate::proofs::Forms::sorted_set_object))]
    pub fn object(alloc: Global, object: u8) -> Result<Boxed<RelExpr>, NoMemory>
        ensures meaning { IfOk result (λ e. (m : Reading) → set_of e m ≡ is_object object) }
        ensures sorted { IfOk result (λ e. (p : Posed) (kinds : Kinds) → IsTrue (nat_lt object p.scope.objects) → IsTrue (is_sorted_set p kinds e)) }
    {
        Ok(Boxed::new(alloc, RelExpr::Object(object))?)
    }

    /// The references of a program variable.
    #[tactic(auto, using(crate::proofs::Forms::set_var, crate::proofs::Forms::sorted_set_var))]
    pub fn variable(alloc: Global, relation: RelVar) -> Result<Boxed<RelExpr>, NoMemory>
        ensures meaning { IfOk result (λ e. (m : Reading) → set_of e m ≡ m.refs relation 0) }
        ensures sorted { IfOk result (λ e. (p : Posed) (kinds : Kinds) → IsTrue (is_variable p kinds AsSet relation) → IsTrue (is_sorted_set p kinds e)) }
    {
        Ok(Boxed::new(alloc, RelExpr::Var(relation))?)
    }

    /// The references of a relation at the objects of a set.
    #[tactic(auto, using(crate::proofs::Forms::set_join, crate::proofs::Building::sorted_join))]
    pub fn join(
        alloc: Global,
        set: Boxed<RelExpr>,
        relation: RelVar,
    ) -> Result<Boxed<RelExpr>, NoMemory>
        ensures meaning { IfOk result (λ e. (m : Reading) → set_of e m ≡ joined m (set_of set m) relation) }
        ensures sorted { IfOk result (λ e. (p : Posed) (kinds : Kinds) → IsTrue (is_sorted_set p kinds set) → IsTrue (is_spread p kinds AsSet relation) → IsTrue (is_sorted_set p kinds e)) }
    {
        Ok(Boxed::new(alloc, RelExpr::Join(set, relation))?)
    }

    /// The objects of a set, and with each object the objects that these relations have there.
    #[tactic(auto, using(crate::proofs::Forms::set_reach, crate::proofs::Building::sorted_reach))]
    pub fn reach(
        alloc: Global,
        set: Boxed<RelExpr>,
        relations: Items<RelVar>,
    ) -> Result<Boxed<RelExpr>, NoMemory>
        ensures meaning { IfOk result (λ e. (m : Reading) → set_of e m ≡ objects_only (reached_from m relations (set_of set m))) }
        ensures sorted { IfOk result (λ e. (p : Posed) (kinds : Kinds) → IsTrue (is_sorted_set p kinds set) → IsTrue (list_all (is_spread p kinds AsSet) relations) → IsTrue (is_sorted_set p kinds e)) }
    {
        Ok(Boxed::new(alloc, RelExpr::Reach(set, relations))?)
    }
}
