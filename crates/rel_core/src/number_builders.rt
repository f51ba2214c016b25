ghost use Rattle.std.specs.Prelude.{◌≡◌, IfOk, IsTrue, Some, None, pos, count_by, ◌+ℤ◌, ◌-ℤ◌, ◌*ℤ◌};
ghost use Rattle.std.specs.Option.{option_map_or};
ghost use Rattle.heap_core.specs.Posed.{Posed};
ghost use Rattle.rel_core.specs.Reading.{Reading, numbers_below};
ghost use Rattle.rel_core.specs.Meaning.{fitting, has_object, number_of, only_object, set_of, with_both};
ghost use Rattle.rel_core.specs.Uses.{Kinds, AsNumber, is_sorted_number, is_sorted_set, is_spread, is_variable};

use crate::numbers::NumExpr;
use crate::relation::RelVar;
use crate::sets::RelExpr;
use no_memory::NoMemory;
use sqlite_items::Boxed;
use std::alloc::Global;

/// The values of numbers, by their forms. Each call is constant in time, and its result is sorted where its
/// parts are and the relation is used by its kind.
impl NumExpr {
    /// This number, where it lies in the width of the problem's numbers.
    #[tactic(auto, using(crate::proofs::Forms::number_const, crate::proofs::Forms::sorted_number_const))]
    pub fn constant(alloc: Global, number: i32) -> Result<Boxed<NumExpr>, NoMemory>
        ensures meaning { IfOk result (λ e. (m : Reading) → number_of e m ≡ fitting m.ints number) }
        ensures sorted { IfOk result (λ e. (p : Posed) (kinds : Kinds) → IsTrue (is_sorted_number p kinds e)) }
    {
        Ok(Boxed::new(alloc, NumExpr::Const(number))?)
    }

    /// The number of a program variable.
    #[tactic(auto, using(crate::proofs::Forms::number_var, crate::proofs::Forms::sorted_number_var))]
    pub fn variable(alloc: Global, relation: RelVar) -> Result<Boxed<NumExpr>, NoMemory>
        ensures meaning { IfOk result (λ e. (m : Reading) → number_of e m ≡ Some (m.number relation 0)) }
        ensures sorted { IfOk result (λ e. (p : Posed) (kinds : Kinds) → IsTrue (is_variable p kinds AsNumber relation) → IsTrue (is_sorted_number p kinds e)) }
    {
        Ok(Boxed::new(alloc, NumExpr::Var(relation))?)
    }

    /// The number of a relation at the only object of a set, and 0 where the set has not exactly one.
    #[tactic(auto, using(crate::proofs::Forms::number_at, crate::proofs::Building::sorted_at))]
    pub fn at(
        alloc: Global,
        set: Boxed<RelExpr>,
        relation: RelVar,
    ) -> Result<Boxed<NumExpr>, NoMemory>
        ensures meaning { IfOk result (λ e. (m : Reading) → number_of e m ≡ Some (option_map_or (m.number relation) (only_object m (set_of set m)) (pos 0))) }
        ensures sorted { IfOk result (λ e. (p : Posed) (kinds : Kinds) → IsTrue (is_sorted_set p kinds set) → IsTrue (is_spread p kinds AsNumber relation) → IsTrue (is_sorted_number p kinds e)) }
    {
        Ok(Boxed::new(alloc, NumExpr::At(set, relation))?)
    }

    /// The sum of two numbers, where both are there and it lies in the width.
    #[tactic(auto, using(crate::proofs::Forms::number_sum, crate::proofs::Building::sorted_sum))]
    pub fn sum(
        alloc: Global,
        left: Boxed<NumExpr>,
        right: Boxed<NumExpr>,
    ) -> Result<Boxed<NumExpr>, NoMemory>
        ensures meaning { IfOk result (λ e. (m : Reading) → number_of e m ≡ with_both (number_of left m) (number_of right m) (λ x y. fitting m.ints (x +ℤ y)) None) }
        ensures sorted { IfOk result (λ e. (p : Posed) (kinds : Kinds) → IsTrue (is_sorted_number p kinds left) → IsTrue (is_sorted_number p kinds right) → IsTrue (is_sorted_number p kinds e)) }
    {
        Ok(Boxed::new(alloc, NumExpr::Sum(left, right))?)
    }

    /// The first number less the second, likewise.
    #[tactic(auto, using(crate::proofs::Forms::number_diff, crate::proofs::Building::sorted_diff))]
    pub fn difference(
        alloc: Global,
        left: Boxed<NumExpr>,
        right: Boxed<NumExpr>,
    ) -> Result<Boxed<NumExpr>, NoMemory>
        ensures meaning { IfOk result (λ e. (m : Reading) → number_of e m ≡ with_both (number_of left m) (number_of right m) (λ x y. fitting m.ints (x -ℤ y)) None) }
        ensures sorted { IfOk result (λ e. (p : Posed) (kinds : Kinds) → IsTrue (is_sorted_number p kinds left) → IsTrue (is_sorted_number p kinds right) → IsTrue (is_sorted_number p kinds e)) }
    {
        Ok(Boxed::new(alloc, NumExpr::Diff(left, right))?)
    }

    /// The product of two numbers, likewise.
    #[tactic(auto, using(crate::proofs::Forms::number_product, crate::proofs::Building::sorted_product))]
    pub fn product(
        alloc: Global,
        left: Boxed<NumExpr>,
        right: Boxed<NumExpr>,
    ) -> Result<Boxed<NumExpr>, NoMemory>
        ensures meaning { IfOk result (λ e. (m : Reading) → number_of e m ≡ with_both (number_of left m) (number_of right m) (λ x y. fitting m.ints (x *ℤ y)) None) }
        ensures sorted { IfOk result (λ e. (p : Posed) (kinds : Kinds) → IsTrue (is_sorted_number p kinds left) → IsTrue (is_sorted_number p kinds right) → IsTrue (is_sorted_number p kinds e)) }
    {
        Ok(Boxed::new(alloc, NumExpr::Product(left, right))?)
    }

    /// How many objects a set has, where that lies in the width.
    #[tactic(auto, using(crate::proofs::Forms::number_count, crate::proofs::Forms::sorted_number_count))]
    pub fn count(alloc: Global, set: Boxed<RelExpr>) -> Result<Boxed<NumExpr>, NoMemory>
        ensures meaning { IfOk result (λ e. (m : Reading) → number_of e m ≡ fitting m.ints (pos (count_by (has_object (set_of set m)) (numbers_below m.objects)))) }
        ensures sorted { IfOk result (λ e. (p : Posed) (kinds : Kinds) → IsTrue (is_sorted_set p kinds set) → IsTrue (is_sorted_number p kinds e)) }
    {
        Ok(Boxed::new(alloc, NumExpr::Count(set))?)
    }
}
