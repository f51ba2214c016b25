ghost use Rattle.std.specs.Prelude.{◌≡◌, ◌||◌, not, true, IfOk, IsTrue};
ghost use Rattle.heap_core.specs.declared.value.Value.{Value};
ghost use Rattle.heap_core.specs.declared.value.Seen.{Seen};
ghost use Rattle.heap_core.specs.Outcomes.{is_out, with_value};
ghost use Rattle.heap_core.specs.Posed.{Posed};
ghost use Rattle.rel_core.specs.declared.formula.Formula.TheVariants.{Const as constant_of};
ghost use Rattle.rel_core.specs.Reading.{Reading};
ghost use Rattle.rel_core.specs.Meaning.{holds};
ghost use Rattle.rel_core.specs.Uses.{Kinds, is_sorted};
ghost use Rattle.clause_terms.specs.Terms.{IsSortedTerm, OnValue, Tells, gives_value};

use crate::copies::formula_copy;
use crate::term::Term;
use no_memory::NoMemory;
use rel_core::Formula;
use sqlite_items::Boxed;
use std::alloc::Global;

/// Whether a formula is the constant true.
fn is_certain(formula: &Boxed<Formula>) -> bool
    ensures { IsTrue result → formula.now ≡ constant_of true }
{
    match formula.get() {
        Formula::Const(truth) => *truth,
        _ => false,
    }
}

/// Where the first formula holds, the second does. The first is copied, unless the second is the constant true.
#[tactic(auto, using(crate::proofs::Flags::certain))]
pub(crate) fn where_holds(
    alloc: Global,
    premise: &Boxed<Formula>,
    conclusion: Boxed<Formula>,
) -> Result<Boxed<Formula>, NoMemory>
    ensures meaning { IfOk result (λ r. (m : Reading) → holds r m ≡ (not (holds premise.now m) || holds conclusion m)) }
    ensures sorted { IfOk result (λ r. (p : Posed) (kinds : Kinds) → IsTrue (is_sorted p kinds premise.now) → IsTrue (is_sorted p kinds conclusion) → IsTrue (is_sorted p kinds r)) }
{
    if is_certain(&conclusion) {
        return Ok(conclusion);
    }
    let copied = formula_copy(alloc, premise)?;
    let implied = Formula::implies(alloc, copied, conclusion)?;
    Ok(implied)
}

/// An evaluation that goes on from a value: what is made of that value, of which `then` tells, decides where the
/// evaluation before gives one.
pub(crate) fn after(
    alloc: Global,
    fine: Boxed<Formula>,
    inside: Boxed<Formula>,
    then: Term,
) -> Result<Term, NoMemory>
    ensures told { IfOk result (λ r. (m : Reading) (s : Seen) (k : Value → Seen) → holds fine m ≡ gives_value s → holds inside m ≡ not (is_out s) → OnValue s (λ v. Tells (k v) then m)
        → Tells (with_value s k) r m) }
    ensures sorted { IfOk result (λ r. (p : Posed) (kinds : Kinds) → IsTrue (is_sorted p kinds fine) → IsTrue (is_sorted p kinds inside) → IsSortedTerm p kinds then → IsSortedTerm p kinds r) }
{
    let Term {
        value,
        fine: then_fine,
        inside: then_inside,
    } = then;
    let stays = where_holds(alloc, &fine, then_inside)?;
    let inside = Formula::both(alloc, inside, stays)?;
    let fine = Formula::both(alloc, fine, then_fine)?;
    Ok(Term {
        value,
        fine,
        inside,
    })
}
