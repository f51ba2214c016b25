ghost use Rattle.std.specs.Prelude.{◌≡◌, ◌&&◌, ◌||◌, not, IfOk};
ghost use Rattle.heap_core.specs.declared.value.Seen.{Seen};
ghost use Rattle.heap_core.specs.Eval.{Env, eval};
ghost use Rattle.heap_core.specs.Posed.{Posed};
ghost use Rattle.rel_core.specs.Reading.{Reading};
ghost use Rattle.rel_core.specs.Uses.{Kinds};
ghost use Rattle.clause_terms.specs.Terms.{IsSortedTruth, IsSortedTerm, Judges, Tells};
ghost use Rattle.jml_rel.specs.Places.{Shows, Sorts};
ghost use Rattle.jml_rel.specs.Clauses.{AreSorted, ThreeTell, clause_point};

use crate::place::Place;
use crate::variables::result;
use crate::walk::walk;
use clause_terms::{Term, Truth};
use heap_core::Problem;
use no_memory::NoMemory;
use rel_core::{Formula, Indices, RelExpr};
use sqlite_items::Boxed;
use std::alloc::Global;
use taco_unit::Clause;

/// What a clause becomes.
#[derive(Drop)]
pub struct Three {
    /// Holds exactly where the clause is true.
    pub truth: Boxed<Formula>,
    /// Holds exactly where it is not read through null.
    pub defined: Boxed<Formula>,
    /// Holds exactly where it stays within the scopes.
    pub inside: Boxed<Formula>,
}

/// The formulas of an outcome that is taken as it is.
fn formulas_of(alloc: Global, term: Term) -> Result<Three, NoMemory>
    ensures told { IfOk result (λ t. (m : Reading) (x : Seen) → Tells x term m → ThreeTell x t m) }
    ensures sorted { IfOk result (λ t. (p : Posed) (kinds : Kinds) → IsSortedTerm p kinds term → AreSorted p kinds t) }
{
    let fine = term.fine.get().copy(alloc)?;
    let inside = term.inside.get().copy(alloc)?;
    let stays = term.inside.get().copy(alloc)?;
    let leaves = Formula::not(alloc, stays)?;
    let defined = Formula::either(alloc, fine, leaves)?;
    let truth = Truth::of(alloc, term)?;
    let Truth {
        value,
        fine,
        inside: _,
    } = truth;
    let truth = Formula::both(alloc, fine, value)?;
    Ok(Three {
        truth,
        defined,
        inside,
    })
}

/// The formulas of a clause: its present heap and the result stand at `at`, the pre-state and the parameters at
/// `old`, and the receiver is the only reference of a set.
pub fn clause_formulas(
    alloc: Global,
    problem: &Problem,
    at: &Indices,
    old: &Indices,
    this: &Boxed<RelExpr>,
    clause: &Clause,
) -> Result<Three, NoMemory>
    ensures told { IfOk result (λ t. (env : Env) (m : Reading) → Shows (clause_point problem.now at.now old.now this.now) env m → ThreeTell (eval clause.now.expr env) t m) }
    ensures sorted { IfOk result (λ t. (kinds : Kinds) → Sorts (clause_point problem.now at.now old.now this.now) kinds → AreSorted problem.now kinds t) }
{
    let place = Place {
        problem,
        heap: at,
        before: old,
        result: result(problem, at),
        this,
        bound: &[],
    };
    let term = walk(alloc, place, &clause.expr)?;
    let formulas = formulas_of(alloc, term)?;
    Ok(formulas)
}
