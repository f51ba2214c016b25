ghost use Rattle.std.specs.Prelude.{◌≡◌, ◌&&◌, ◌||◌, not, IfOk, IfSome, IsTrue, int_lt, is_some, false};
ghost use Rattle.std.specs.Ordering.{int_eq};
ghost use Rattle.std.specs.Option.{option_map_or};
ghost use Rattle.heap_core.specs.Outcomes.{same_flag};
ghost use Rattle.heap_core.specs.Posed.{Posed};
ghost use Rattle.rel_core.specs.declared.formula.Formula.TheVariants as form;
ghost use Rattle.rel_core.specs.Reading.{Reading};
ghost use Rattle.rel_core.specs.Meaning.{are_of, holds, is_changed, is_subset, number_of, only_object, set_of, with_both};
ghost use Rattle.rel_core.specs.Uses.{Kinds, AsClass, AsFlag, can_change, is_sorted, is_sorted_number, is_sorted_set, is_spread, is_variable};

use crate::formula::Formula;
use crate::numbers::NumExpr;
use crate::relation::RelVar;
use crate::sets::RelExpr;
use no_memory::NoMemory;
use sqlite_items::{Boxed, Items};
use std::alloc::Global;

/// The conditions, by their forms. Each call is constant in time, and its result is sorted where its parts are
/// and the relations are used by their kinds.
impl Formula {
    /// True or false.
    #[tactic(auto, using(crate::proofs::Forms::holds_const, crate::proofs::Forms::sorted_const))]
    pub fn constant(alloc: Global, truth: bool) -> Result<Boxed<Formula>, NoMemory>
        ensures meaning { IfOk result (λ r. (m : Reading) → holds r m ≡ truth) }
        ensures sorted { IfOk result (λ r. (p : Posed) (kinds : Kinds) → IsTrue (is_sorted p kinds r)) }
    {
        Ok(Boxed::new(alloc, Formula::Const(truth))?)
    }

    /// The truth value of a program variable.
    #[tactic(auto, using(crate::proofs::Forms::holds_flag, crate::proofs::Forms::sorted_flag))]
    pub fn flag(alloc: Global, relation: RelVar) -> Result<Boxed<Formula>, NoMemory>
        ensures meaning { IfOk result (λ r. (m : Reading) → holds r m ≡ m.flag relation 0) }
        ensures sorted { IfOk result (λ r. (p : Posed) (kinds : Kinds) → IsTrue (is_variable p kinds AsFlag relation) → IsTrue (is_sorted p kinds r)) }
    {
        Ok(Boxed::new(alloc, Formula::Flag(relation))?)
    }

    /// A set has exactly one object, and the relation's flag there is true.
    #[tactic(auto, using(crate::proofs::Forms::holds_flag_at, crate::proofs::Building::sorted_flag_there))]
    pub fn flag_at(
        alloc: Global,
        set: Boxed<RelExpr>,
        relation: RelVar,
    ) -> Result<Boxed<Formula>, NoMemory>
        ensures meaning { IfOk result (λ r. (m : Reading) → holds r m ≡ option_map_or (m.flag relation) (only_object m (set_of set m)) false) }
        ensures sorted { IfOk result (λ r. (p : Posed) (kinds : Kinds) → IsTrue (is_sorted_set p kinds set) → IsTrue (is_spread p kinds AsFlag relation) → IsTrue (is_sorted p kinds r)) }
    {
        Ok(Boxed::new(alloc, Formula::FlagAt(set, relation))?)
    }

    /// Each value of the first set is in the second.
    #[tactic(auto, using(crate::proofs::Forms::holds_subset, crate::proofs::Building::sorted_inclusion))]
    pub fn subset(
        alloc: Global,
        inner: Boxed<RelExpr>,
        outer: Boxed<RelExpr>,
    ) -> Result<Boxed<Formula>, NoMemory>
        ensures meaning { IfOk result (λ r. (m : Reading) → holds r m ≡ is_subset m (set_of inner m) (set_of outer m)) }
        ensures sorted { IfOk result (λ r. (p : Posed) (kinds : Kinds) → IsTrue (is_sorted_set p kinds inner) → IsTrue (is_sorted_set p kinds outer) → IsTrue (is_sorted p kinds r)) }
    {
        Ok(Boxed::new(alloc, Formula::Subset(inner, outer))?)
    }

    /// Every object of a set has the class of this number, by the relation.
    #[tactic(auto, using(crate::proofs::Forms::holds_is_class, crate::proofs::Building::sorted_class))]
    pub fn is_class(
        alloc: Global,
        set: Boxed<RelExpr>,
        class: u8,
        relation: RelVar,
    ) -> Result<Boxed<Formula>, NoMemory>
        ensures meaning { IfOk result (λ r. (m : Reading) → holds r m ≡ are_of m (set_of set m) class relation) }
        ensures sorted { IfOk result (λ r. (p : Posed) (kinds : Kinds) → IsTrue (is_sorted_set p kinds set) → IsTrue (is_spread p kinds AsClass relation) → IsTrue (is_sorted p kinds r)) }
    {
        Ok(Boxed::new(alloc, Formula::IsClass(set, class, relation))?)
    }

    /// Both numbers are there and are the same.
    #[tactic(auto, using(crate::proofs::Forms::holds_same_number, crate::proofs::Building::sorted_equation))]
    pub fn same_number(
        alloc: Global,
        left: Boxed<NumExpr>,
        right: Boxed<NumExpr>,
    ) -> Result<Boxed<Formula>, NoMemory>
        ensures meaning { IfOk result (λ r. (m : Reading) → holds r m ≡ with_both (number_of left m) (number_of right m) int_eq false) }
        ensures sorted { IfOk result (λ r. (p : Posed) (kinds : Kinds) → IsTrue (is_sorted_number p kinds left) → IsTrue (is_sorted_number p kinds right) → IsTrue (is_sorted p kinds r)) }
    {
        Ok(Boxed::new(alloc, Formula::SameNum(left, right))?)
    }

    /// Both numbers are there, and the first is below the second.
    #[tactic(auto, using(crate::proofs::Forms::holds_below, crate::proofs::Building::sorted_order))]
    pub fn below(
        alloc: Global,
        left: Boxed<NumExpr>,
        right: Boxed<NumExpr>,
    ) -> Result<Boxed<Formula>, NoMemory>
        ensures meaning { IfOk result (λ r. (m : Reading) → holds r m ≡ with_both (number_of left m) (number_of right m) int_lt false) }
        ensures sorted { IfOk result (λ r. (p : Posed) (kinds : Kinds) → IsTrue (is_sorted_number p kinds left) → IsTrue (is_sorted_number p kinds right) → IsTrue (is_sorted p kinds r)) }
    {
        Ok(Boxed::new(alloc, Formula::BelowNum(left, right))?)
    }

    /// The number is there.
    #[tactic(auto, using(crate::proofs::Forms::holds_fits, crate::proofs::Forms::sorted_fits))]
    pub fn fits(alloc: Global, number: Boxed<NumExpr>) -> Result<Boxed<Formula>, NoMemory>
        ensures meaning { IfOk result (λ r. (m : Reading) → holds r m ≡ is_some (number_of number m)) }
        ensures sorted { IfOk result (λ r. (p : Posed) (kinds : Kinds) → IsTrue (is_sorted_number p kinds number) → IsTrue (is_sorted p kinds r)) }
    {
        Ok(Boxed::new(alloc, Formula::Fits(number))?)
    }

    /// Relation `new` is relation `old`, but that at each object of a set it has what `given` has at place 0.
    #[tactic(auto, using(crate::proofs::Forms::holds_changed, crate::proofs::Building::sorted_change))]
    pub fn changed(
        alloc: Global,
        new: RelVar,
        set: Boxed<RelExpr>,
        given: RelVar,
        old: RelVar,
    ) -> Result<Boxed<Formula>, NoMemory>
        ensures meaning { IfOk result (λ r. (m : Reading) → holds r m ≡ is_changed m new (set_of set m) given old) }
        ensures sorted { IfOk result (λ r. (p : Posed) (kinds : Kinds) → IsTrue (is_sorted_set p kinds set) → IsTrue (can_change p kinds new given old) → IsTrue (is_sorted p kinds r)) }
    {
        Ok(Boxed::new(alloc, Formula::Changed(new, set, given, old))?)
    }
}
