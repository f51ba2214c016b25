ghost use Rattle.std.specs.Prelude.{◌≡◌, ◌&&◌, ◌||◌, not, [], ◌∷◌, IfOk, IfSome, IsTrue};
ghost use Rattle.heap_core.specs.Outcomes.{same_flag};
ghost use Rattle.heap_core.specs.Posed.{Posed};
ghost use Rattle.rel_core.specs.Reading.{Reading};
ghost use Rattle.rel_core.specs.Meaning.{holds};
ghost use Rattle.rel_core.specs.Uses.{Kinds, is_sorted};

use crate::formula::Formula;
use no_memory::NoMemory;
use sqlite_items::{Boxed, Items};
use std::alloc::Global;

/// Two parts, in order.
fn pair(
    alloc: Global,
    first: Boxed<Formula>,
    second: Boxed<Formula>,
) -> Result<Items<Formula>, NoMemory>
    ensures { IfOk result (λ parts. parts ≡ first ∷ second ∷ []) }
{
    let mut parts = Items::from_vec(Vec::with_capacity(alloc, 2)?);
    parts.push(first.into_inner())?;
    parts.push(second.into_inner())?;
    Ok(parts)
}

/// The conjunction of two formulas, as a form of its own.
#[tactic(auto, using(crate::proofs::Joining::holds_pair, crate::proofs::Joining::sorted_pair))]
fn conjunction(
    alloc: Global,
    left: Boxed<Formula>,
    right: Boxed<Formula>,
) -> Result<Boxed<Formula>, NoMemory>
    ensures meaning { IfOk result (λ r. (m : Reading) → holds r m ≡ (holds left m && holds right m)) }
    ensures sorted { IfOk result (λ r. (p : Posed) (kinds : Kinds) → IsTrue (is_sorted p kinds left) → IsTrue (is_sorted p kinds right) → IsTrue (is_sorted p kinds r)) }
{
    let parts = pair(alloc, left, right)?;
    Ok(Boxed::new(alloc, Formula::And(parts))?)
}

/// The disjunction of two formulas, as a form of its own.
#[tactic(auto, using(crate::proofs::Joining::holds_either, crate::proofs::Joining::sorted_either))]
fn disjunction(
    alloc: Global,
    left: Boxed<Formula>,
    right: Boxed<Formula>,
) -> Result<Boxed<Formula>, NoMemory>
    ensures meaning { IfOk result (λ r. (m : Reading) → holds r m ≡ (holds left m || holds right m)) }
    ensures sorted { IfOk result (λ r. (p : Posed) (kinds : Kinds) → IsTrue (is_sorted p kinds left) → IsTrue (is_sorted p kinds right) → IsTrue (is_sorted p kinds r)) }
{
    let parts = pair(alloc, left, right)?;
    Ok(Boxed::new(alloc, Formula::Or(parts))?)
}

/// A negation, as a form of its own.
#[tactic(auto, using(crate::proofs::Forms::holds_not, crate::proofs::Forms::sorted_not))]
fn negation(alloc: Global, operand: Boxed<Formula>) -> Result<Boxed<Formula>, NoMemory>
    ensures meaning { IfOk result (λ r. (m : Reading) → holds r m ≡ not (holds operand m)) }
    ensures sorted { IfOk result (λ r. (p : Posed) (kinds : Kinds) → IsTrue (is_sorted p kinds operand) → IsTrue (is_sorted p kinds r)) }
{
    Ok(Boxed::new(alloc, Formula::Not(operand))?)
}

/// One truth value, as a form of its own.
#[tactic(auto, using(crate::proofs::Forms::holds_same, crate::proofs::Building::sorted_sameness))]
fn equivalence(
    alloc: Global,
    left: Boxed<Formula>,
    right: Boxed<Formula>,
) -> Result<Boxed<Formula>, NoMemory>
    ensures meaning { IfOk result (λ r. (m : Reading) → holds r m ≡ same_flag (holds left m) (holds right m)) }
    ensures sorted { IfOk result (λ r. (p : Posed) (kinds : Kinds) → IsTrue (is_sorted p kinds left) → IsTrue (is_sorted p kinds right) → IsTrue (is_sorted p kinds r)) }
{
    Ok(Boxed::new(alloc, Formula::Same(left, right))?)
}

impl Formula {
    ghost use Rattle.rel_core.specs.declared.formula.Formula.TheVariants.{Const as constant_of};

    /// The truth value, where the formula is a constant.
    pub(crate) fn as_constant(&self) -> Option<bool>
        ensures { IfSome result (λ b. self.now ≡ constant_of b) }
    {
        match self {
            Formula::Const(truth) => Some(*truth),
            _ => None,
        }
    }

    /// The opposite. That of a constant is a constant, that of an opposite what it is the opposite of.
    #[tactic(auto, using(crate::proofs::Joining::opposite_of_constant, crate::proofs::Joining::opposite_of_opposite, crate::proofs::Joining::sorted_inside))]
    pub fn not(alloc: Global, operand: Boxed<Formula>) -> Result<Boxed<Formula>, NoMemory>
        ensures meaning { IfOk result (λ r. (m : Reading) → holds r m ≡ not (holds operand m)) }
        ensures sorted { IfOk result (λ r. (p : Posed) (kinds : Kinds) → IsTrue (is_sorted p kinds operand) → IsTrue (is_sorted p kinds r)) }
    {
        match operand.into_inner() {
            Formula::Const(truth) => {
                let opposite = Formula::constant(alloc, !truth)?;
                Ok(opposite)
            }
            Formula::Not(inner) => Ok(inner),
            other => {
                let operand = Boxed::new(alloc, other)?;
                let opposite = negation(alloc, operand)?;
                Ok(opposite)
            }
        }
    }

    /// The conjunction of two formulas. A constant is left out, or is all that there is.
    #[tactic(auto, using(crate::proofs::Forms::holds_const))]
    pub fn both(
        alloc: Global,
        left: Boxed<Formula>,
        right: Boxed<Formula>,
    ) -> Result<Boxed<Formula>, NoMemory>
        ensures meaning { IfOk result (λ r. (m : Reading) → holds r m ≡ (holds left m && holds right m)) }
        ensures sorted { IfOk result (λ r. (p : Posed) (kinds : Kinds) → IsTrue (is_sorted p kinds left) → IsTrue (is_sorted p kinds right) → IsTrue (is_sorted p kinds r)) }
    {
        match (left.get().as_constant(), right.get().as_constant()) {
            (Some(true), _) => Ok(right),
            (Some(false), _) => Ok(left),
            (None, Some(true)) => Ok(left),
            (None, Some(false)) => Ok(right),
            (None, None) => {
                let all = conjunction(alloc, left, right)?;
                Ok(all)
            }
        }
    }

    /// The disjunction of two formulas. A constant is left out, or is all that there is.
    #[tactic(auto, using(crate::proofs::Forms::holds_const))]
    pub fn either(
        alloc: Global,
        left: Boxed<Formula>,
        right: Boxed<Formula>,
    ) -> Result<Boxed<Formula>, NoMemory>
        ensures meaning { IfOk result (λ r. (m : Reading) → holds r m ≡ (holds left m || holds right m)) }
        ensures sorted { IfOk result (λ r. (p : Posed) (kinds : Kinds) → IsTrue (is_sorted p kinds left) → IsTrue (is_sorted p kinds right) → IsTrue (is_sorted p kinds r)) }
    {
        match (left.get().as_constant(), right.get().as_constant()) {
            (Some(true), _) => Ok(left),
            (Some(false), _) => Ok(right),
            (None, Some(true)) => Ok(right),
            (None, Some(false)) => Ok(left),
            (None, None) => {
                let some = disjunction(alloc, left, right)?;
                Ok(some)
            }
        }
    }

    /// Where the first formula holds, the second does.
    pub fn implies(
        alloc: Global,
        premise: Boxed<Formula>,
        conclusion: Boxed<Formula>,
    ) -> Result<Boxed<Formula>, NoMemory>
        ensures meaning { IfOk result (λ r. (m : Reading) → holds r m ≡ (not (holds premise m) || holds conclusion m)) }
        ensures sorted { IfOk result (λ r. (p : Posed) (kinds : Kinds) → IsTrue (is_sorted p kinds premise) → IsTrue (is_sorted p kinds conclusion) → IsTrue (is_sorted p kinds r)) }
    {
        let fails = Formula::not(alloc, premise)?;
        let either = Formula::either(alloc, fails, conclusion)?;
        Ok(either)
    }

    /// Both formulas have one truth value. Beside a constant it is the other formula, or its opposite.
    #[tactic(auto, using(crate::proofs::Forms::holds_const))]
    pub fn same(
        alloc: Global,
        left: Boxed<Formula>,
        right: Boxed<Formula>,
    ) -> Result<Boxed<Formula>, NoMemory>
        ensures meaning { IfOk result (λ r. (m : Reading) → holds r m ≡ same_flag (holds left m) (holds right m)) }
        ensures sorted { IfOk result (λ r. (p : Posed) (kinds : Kinds) → IsTrue (is_sorted p kinds left) → IsTrue (is_sorted p kinds right) → IsTrue (is_sorted p kinds r)) }
    {
        match (left.get().as_constant(), right.get().as_constant()) {
            (Some(true), _) => Ok(right),
            (Some(false), _) => {
                let opposite = Formula::not(alloc, right)?;
                Ok(opposite)
            }
            (None, Some(true)) => Ok(left),
            (None, Some(false)) => {
                let opposite = Formula::not(alloc, left)?;
                Ok(opposite)
            }
            (None, None) => {
                let same = equivalence(alloc, left, right)?;
                Ok(same)
            }
        }
    }
}
