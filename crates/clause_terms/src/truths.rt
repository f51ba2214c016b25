ghost use Rattle.std.specs.Prelude.{◌≡◌, ◌&&◌, ◌||◌, not, false, IfOk, IsTrue};
ghost use Rattle.taco_unit.specs.declared.expr.Op.TheVariants as op;
ghost use Rattle.heap_core.specs.declared.value.Seen.{Seen};
ghost use Rattle.heap_core.specs.Outcomes.{as_flag, opposite, with_value};
ghost use Rattle.heap_core.specs.Eval.{binary};
ghost use Rattle.heap_core.specs.Posed.{Posed};
ghost use Rattle.rel_core.specs.Reading.{Reading};
ghost use Rattle.rel_core.specs.Meaning.{holds};
ghost use Rattle.rel_core.specs.Uses.{Kinds, is_sorted};
ghost use Rattle.clause_terms.specs.Terms.{IsSortedTerm, IsSortedTruth, Judges, Tells};

use crate::after::where_holds;
use crate::copies::formula_copy;
use crate::term::{Shape, Term, Truth};
use no_memory::NoMemory;
use rel_core::Formula;
use sqlite_items::Boxed;
use std::alloc::Global;

/// Where an evaluation gives a truth value, and where it stays within the scopes.
#[derive(Drop)]
struct Ends {
    fine: Boxed<Formula>,
    inside: Boxed<Formula>,
}

/// No truth value: where a value was given, it is none.
fn no_truth(alloc: Global, fine: Boxed<Formula>, inside: Boxed<Formula>) -> Result<Truth, NoMemory>
    ensures fine { IfOk result (λ r. (m : Reading) → holds r.fine m ≡ false) }
    ensures inside { IfOk result (λ r. (m : Reading) → holds r.inside m ≡ (holds inside m && not (holds fine m))) }
    ensures sorted { IfOk result (λ r. (p : Posed) (kinds : Kinds) → IsTrue (is_sorted p kinds fine) → IsTrue (is_sorted p kinds inside) → IsSortedTruth p kinds r) }
{
    let none = Formula::not(alloc, fine)?;
    let inside = Formula::both(alloc, inside, none)?;
    let fine = Formula::constant(alloc, false)?;
    let value = Formula::constant(alloc, false)?;
    Ok(Truth {
        value,
        fine,
        inside,
    })
}

/// The right operand counts where the left one is given and the formula `when` holds.
fn lazy(alloc: Global, left: Ends, when: &Boxed<Formula>, right: Ends) -> Result<Ends, NoMemory>
    ensures fine { IfOk result (λ r. (m : Reading) → holds r.fine m ≡ (holds left.fine m && (not (holds when.now m) || holds right.fine m))) }
    ensures inside { IfOk result (λ r. (m : Reading) → holds r.inside m ≡ (holds left.inside m && (not (holds left.fine m) || (not (holds when.now m) || holds right.inside m)))) }
    ensures sorted { IfOk result (λ r. (p : Posed) (kinds : Kinds) → IsTrue (is_sorted p kinds left.fine) → IsTrue (is_sorted p kinds left.inside) → IsTrue (is_sorted p kinds when.now)
        → IsTrue (is_sorted p kinds right.fine) → IsTrue (is_sorted p kinds right.inside) → IsTrue (is_sorted p kinds r.fine) × IsTrue (is_sorted p kinds r.inside)) }
{
    let Ends { fine, inside } = left;
    let Ends {
        fine: right_fine,
        inside: right_inside,
    } = right;
    let reached = where_holds(alloc, when, right_inside)?;
    let stays = where_holds(alloc, &fine, reached)?;
    let inside = Formula::both(alloc, inside, stays)?;
    let given = where_holds(alloc, when, right_fine)?;
    let fine = Formula::both(alloc, fine, given)?;
    Ok(Ends { fine, inside })
}

impl Truth {
    /// The outcome taken as a truth value: a value that is none leaves the scopes.
    pub fn of(alloc: Global, term: Term) -> Result<Truth, NoMemory>
        ensures told { IfOk result (λ r. (m : Reading) (x : Seen) → Tells x term m → Judges x r m) }
        ensures sorted { IfOk result (λ r. (p : Posed) (kinds : Kinds) → IsSortedTerm p kinds term → IsSortedTruth p kinds r) }
    {
        let Term {
            value,
            fine,
            inside,
        } = term;
        match value {
            Shape::Truth(value) => Ok(Truth {
                value,
                fine,
                inside,
            }),
            Shape::Set(_) => {
                let none = no_truth(alloc, fine, inside)?;
                Ok(none)
            }
            Shape::Number(_) => {
                let none = no_truth(alloc, fine, inside)?;
                Ok(none)
            }
        }
    }

    /// The truth value as an outcome.
    pub fn term(self) -> Term
        ensures told { (m : Reading) (x : Seen) → Judges x self m → Tells (as_flag x) result m }
        ensures sorted { (p : Posed) (kinds : Kinds) → IsSortedTruth p kinds self → IsSortedTerm p kinds result }
    {
        let Truth {
            value,
            fine,
            inside,
        } = self;
        Term {
            value: Shape::Truth(value),
            fine,
            inside,
        }
    }

    /// The opposite truth value.
    pub fn opposite(alloc: Global, operand: Truth) -> Result<Truth, NoMemory>
        ensures told { IfOk result (λ r. (m : Reading) (x : Seen) → Judges x operand m → Judges (with_value x opposite) r m) }
        ensures sorted { IfOk result (λ r. (p : Posed) (kinds : Kinds) → IsSortedTruth p kinds operand → IsSortedTruth p kinds r) }
    {
        let Truth {
            value,
            fine,
            inside,
        } = operand;
        let value = Formula::not(alloc, value)?;
        Ok(Truth {
            value,
            fine,
            inside,
        })
    }

    /// `left && right`, which looks at the right operand where the left one is true.
    pub fn conjunction(alloc: Global, left: Truth, right: Truth) -> Result<Truth, NoMemory>
        ensures told { IfOk result (λ r. (m : Reading) (x y : Seen) → Judges x left m → Judges y right m → Judges (binary op.And m.ints x y) r m) }
        ensures sorted { IfOk result (λ r. (p : Posed) (kinds : Kinds) → IsSortedTruth p kinds left → IsSortedTruth p kinds right → IsSortedTruth p kinds r) }
    {
        let Truth {
            value,
            fine,
            inside,
        } = left;
        let Truth {
            value: right_value,
            fine: right_fine,
            inside: right_inside,
        } = right;
        let left = Ends { fine, inside };
        let right = Ends {
            fine: right_fine,
            inside: right_inside,
        };
        let ends = lazy(alloc, left, &value, right)?;
        let both = Formula::both(alloc, value, right_value)?;
        let Ends { fine, inside } = ends;
        Ok(Truth {
            value: both,
            fine,
            inside,
        })
    }

    /// `left || right`, which looks at the right operand where the left one is false.
    pub fn disjunction(alloc: Global, left: Truth, right: Truth) -> Result<Truth, NoMemory>
        ensures told { IfOk result (λ r. (m : Reading) (x y : Seen) → Judges x left m → Judges y right m → Judges (binary op.Or m.ints x y) r m) }
        ensures sorted { IfOk result (λ r. (p : Posed) (kinds : Kinds) → IsSortedTruth p kinds left → IsSortedTruth p kinds right → IsSortedTruth p kinds r) }
    {
        let Truth {
            value,
            fine,
            inside,
        } = left;
        let Truth {
            value: right_value,
            fine: right_fine,
            inside: right_inside,
        } = right;
        let left = Ends { fine, inside };
        let right = Ends {
            fine: right_fine,
            inside: right_inside,
        };
        let copied = formula_copy(alloc, &value)?;
        let when = Formula::not(alloc, copied)?;
        let ends = lazy(alloc, left, &when, right)?;
        let either = Formula::either(alloc, value, right_value)?;
        let Ends { fine, inside } = ends;
        Ok(Truth {
            value: either,
            fine,
            inside,
        })
    }

    /// `left ==> right`, which looks at the right operand where the left one is true.
    pub fn implication(alloc: Global, left: Truth, right: Truth) -> Result<Truth, NoMemory>
        ensures told { IfOk result (λ r. (m : Reading) (x y : Seen) → Judges x left m → Judges y right m → Judges (binary op.Implies m.ints x y) r m) }
        ensures sorted { IfOk result (λ r. (p : Posed) (kinds : Kinds) → IsSortedTruth p kinds left → IsSortedTruth p kinds right → IsSortedTruth p kinds r) }
    {
        let Truth {
            value,
            fine,
            inside,
        } = left;
        let Truth {
            value: right_value,
            fine: right_fine,
            inside: right_inside,
        } = right;
        let left = Ends { fine, inside };
        let right = Ends {
            fine: right_fine,
            inside: right_inside,
        };
        let ends = lazy(alloc, left, &value, right)?;
        let implied = Formula::implies(alloc, value, right_value)?;
        let Ends { fine, inside } = ends;
        Ok(Truth {
            value: implied,
            fine,
            inside,
        })
    }
}
