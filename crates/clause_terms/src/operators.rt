ghost use Rattle.std.specs.Prelude.{◌≡◌, IfOk, IsTrue};
ghost use Rattle.heap_core.specs.declared.value.Value.{Value};
ghost use Rattle.heap_core.specs.declared.value.Seen.{Seen};
ghost use Rattle.heap_core.specs.Outcomes.{is_value, negative as negative_lem, operated, opposite as opposite_lem, with_value};
ghost use Rattle.heap_core.specs.Eval.{binary as binary_lem};
ghost use Rattle.heap_core.specs.Posed.{Posed};
ghost use Rattle.rel_core.specs.Reading.{Reading};
ghost use Rattle.rel_core.specs.Meaning.{holds};
ghost use Rattle.rel_core.specs.Uses.{Kinds, is_sorted, is_sorted_number, is_sorted_set};
ghost use Rattle.clause_terms.specs.declared.term.Shape.TheVariants.{Set as set_shape, Number as number_shape, Truth as truth_shape};
ghost use Rattle.clause_terms.specs.Terms.{HasValue, IsSortedTerm, Tells, is_sorted_shape};

use crate::after::after;
use crate::numbers::{negated, on_numbers};
use crate::term::{Shape, Term, Truth};
use no_memory::NoMemory;
use rel_core::{Formula, NumExpr, RelExpr};
use sqlite_items::Boxed;
use std::alloc::Global;
use taco_unit::Op;

/// Two references are one: the second is in the set of the first.
fn one_reference(
    alloc: Global,
    x: Boxed<RelExpr>,
    y: Boxed<RelExpr>,
) -> Result<Boxed<Formula>, NoMemory>
    ensures meaning { IfOk result (λ r. (m : Reading) (v u : Value) → HasValue m (set_shape x) v → HasValue m (set_shape y) u → holds r m ≡ is_value v u) }
    ensures sorted { IfOk result (λ r. (p : Posed) (kinds : Kinds) → IsTrue (is_sorted_set p kinds x) → IsTrue (is_sorted_set p kinds y) → IsTrue (is_sorted p kinds r)) }
{
    let within = Formula::subset(alloc, y, x)?;
    Ok(within)
}

/// What an operator makes of two references.
fn on_sets(alloc: Global, op: Op, x: Boxed<RelExpr>, y: Boxed<RelExpr>) -> Result<Term, NoMemory>
    ensures told { IfOk result (λ r. (m : Reading) (v u : Value) → HasValue m (set_shape x) v → HasValue m (set_shape y) u → Tells (operated op m.ints v u) r m) }
    ensures sorted { IfOk result (λ r. (p : Posed) (kinds : Kinds) → IsTrue (is_sorted_set p kinds x) → IsTrue (is_sorted_set p kinds y) → IsSortedTerm p kinds r) }
{
    match op {
        Op::Eq => {
            let same = one_reference(alloc, x, y)?;
            let term = Term::sure(alloc, Shape::Truth(same))?;
            Ok(term)
        }
        Op::Ne => {
            let same = one_reference(alloc, x, y)?;
            let other = Formula::not(alloc, same)?;
            let term = Term::sure(alloc, Shape::Truth(other))?;
            Ok(term)
        }
        _ => {
            let term = Term::missing(alloc)?;
            Ok(term)
        }
    }
}

/// What an operator makes of two truth values.
fn on_truths(alloc: Global, op: Op, x: Boxed<Formula>, y: Boxed<Formula>) -> Result<Term, NoMemory>
    ensures told { IfOk result (λ r. (m : Reading) (v u : Value) → HasValue m (truth_shape x) v → HasValue m (truth_shape y) u → Tells (operated op m.ints v u) r m) }
    ensures sorted { IfOk result (λ r. (p : Posed) (kinds : Kinds) → IsTrue (is_sorted p kinds x) → IsTrue (is_sorted p kinds y) → IsSortedTerm p kinds r) }
{
    match op {
        Op::Eq => {
            let same = Formula::same(alloc, x, y)?;
            let term = Term::sure(alloc, Shape::Truth(same))?;
            Ok(term)
        }
        Op::Iff => {
            let same = Formula::same(alloc, x, y)?;
            let term = Term::sure(alloc, Shape::Truth(same))?;
            Ok(term)
        }
        Op::Ne => {
            let same = Formula::same(alloc, x, y)?;
            let other = Formula::not(alloc, same)?;
            let term = Term::sure(alloc, Shape::Truth(other))?;
            Ok(term)
        }
        _ => {
            let term = Term::missing(alloc)?;
            Ok(term)
        }
    }
}

/// What an operator makes of a reference and a value.
fn beside_set(alloc: Global, op: Op, x: Boxed<RelExpr>, right: Shape) -> Result<Term, NoMemory>
    ensures told { IfOk result (λ r. (m : Reading) (v u : Value) → HasValue m (set_shape x) v → HasValue m right u → Tells (operated op m.ints v u) r m) }
    ensures sorted { IfOk result (λ r. (p : Posed) (kinds : Kinds) → IsTrue (is_sorted_set p kinds x) → IsTrue (is_sorted_shape p kinds right) → IsSortedTerm p kinds r) }
{
    match right {
        Shape::Set(y) => {
            let term = on_sets(alloc, op, x, y)?;
            Ok(term)
        }
        Shape::Number(_) => {
            let term = Term::missing(alloc)?;
            Ok(term)
        }
        Shape::Truth(_) => {
            let term = Term::missing(alloc)?;
            Ok(term)
        }
    }
}

/// What an operator makes of a number and a value.
fn beside_number(alloc: Global, op: Op, x: Boxed<NumExpr>, right: Shape) -> Result<Term, NoMemory>
    ensures told { IfOk result (λ r. (m : Reading) (v u : Value) → HasValue m (number_shape x) v → HasValue m right u → Tells (operated op m.ints v u) r m) }
    ensures sorted { IfOk result (λ r. (p : Posed) (kinds : Kinds) → IsTrue (is_sorted_number p kinds x) → IsTrue (is_sorted_shape p kinds right) → IsSortedTerm p kinds r) }
{
    match right {
        Shape::Number(y) => {
            let term = on_numbers(alloc, op, x, y)?;
            Ok(term)
        }
        Shape::Set(_) => {
            let term = Term::missing(alloc)?;
            Ok(term)
        }
        Shape::Truth(_) => {
            let term = Term::missing(alloc)?;
            Ok(term)
        }
    }
}

/// What an operator makes of a truth value and a value.
fn beside_truth(alloc: Global, op: Op, x: Boxed<Formula>, right: Shape) -> Result<Term, NoMemory>
    ensures told { IfOk result (λ r. (m : Reading) (v u : Value) → HasValue m (truth_shape x) v → HasValue m right u → Tells (operated op m.ints v u) r m) }
    ensures sorted { IfOk result (λ r. (p : Posed) (kinds : Kinds) → IsTrue (is_sorted p kinds x) → IsTrue (is_sorted_shape p kinds right) → IsSortedTerm p kinds r) }
{
    match right {
        Shape::Truth(y) => {
            let term = on_truths(alloc, op, x, y)?;
            Ok(term)
        }
        Shape::Set(_) => {
            let term = Term::missing(alloc)?;
            Ok(term)
        }
        Shape::Number(_) => {
            let term = Term::missing(alloc)?;
            Ok(term)
        }
    }
}

/// What an operator makes of two values.
fn on_values(alloc: Global, op: Op, left: Shape, right: Shape) -> Result<Term, NoMemory>
    ensures told { IfOk result (λ r. (m : Reading) (v u : Value) → HasValue m left v → HasValue m right u → Tells (operated op m.ints v u) r m) }
    ensures sorted { IfOk result (λ r. (p : Posed) (kinds : Kinds) → IsTrue (is_sorted_shape p kinds left) → IsTrue (is_sorted_shape p kinds right) → IsSortedTerm p kinds r) }
{
    match left {
        Shape::Set(x) => {
            let term = beside_set(alloc, op, x, right)?;
            Ok(term)
        }
        Shape::Number(x) => {
            let term = beside_number(alloc, op, x, right)?;
            Ok(term)
        }
        Shape::Truth(x) => {
            let term = beside_truth(alloc, op, x, right)?;
            Ok(term)
        }
    }
}

/// The number with the other sign, of a value.
fn negative_value(alloc: Global, value: Shape) -> Result<Term, NoMemory>
    ensures told { IfOk result (λ r. (m : Reading) (v : Value) → HasValue m value v → Tells (negative_lem m.ints v) r m) }
    ensures sorted { IfOk result (λ r. (p : Posed) (kinds : Kinds) → IsTrue (is_sorted_shape p kinds value) → IsSortedTerm p kinds r) }
{
    match value {
        Shape::Number(number) => {
            let term = negated(alloc, number)?;
            Ok(term)
        }
        Shape::Set(_) => {
            let term = Term::missing(alloc)?;
            Ok(term)
        }
        Shape::Truth(_) => {
            let term = Term::missing(alloc)?;
            Ok(term)
        }
    }
}

impl Term {
    /// The number with the other sign. Out where it leaves the bits.
    pub fn negative(alloc: Global, operand: Term) -> Result<Term, NoMemory>
        ensures told { IfOk result (λ r. (m : Reading) (x : Seen) → Tells x operand m → Tells (with_value x (negative_lem m.ints)) r m) }
        ensures sorted { IfOk result (λ r. (p : Posed) (kinds : Kinds) → IsSortedTerm p kinds operand → IsSortedTerm p kinds r) }
    {
        let Term {
            value,
            fine,
            inside,
        } = operand;
        let then = negative_value(alloc, value)?;
        let term = after(alloc, fine, inside, then)?;
        Ok(term)
    }

    /// The opposite truth value.
    pub fn opposite(alloc: Global, operand: Term) -> Result<Term, NoMemory>
        ensures told { IfOk result (λ r. (m : Reading) (x : Seen) → Tells x operand m → Tells (with_value x opposite_lem) r m) }
        ensures sorted { IfOk result (λ r. (p : Posed) (kinds : Kinds) → IsSortedTerm p kinds operand → IsSortedTerm p kinds r) }
    {
        let truth = Truth::of(alloc, operand)?;
        let turned = Truth::opposite(alloc, truth)?;
        Ok(turned.term())
    }

    /// What an operator makes of two outcomes, of which it evaluates both.
    fn strict(alloc: Global, op: Op, left: Term, right: Term) -> Result<Term, NoMemory>
        ensures told { IfOk result (λ r. (m : Reading) (x y : Seen) → Tells x left m → Tells y right m → Tells (with_value x (λ v. with_value y (operated op m.ints v))) r m) }
        ensures sorted { IfOk result (λ r. (p : Posed) (kinds : Kinds) → IsSortedTerm p kinds left → IsSortedTerm p kinds right → IsSortedTerm p kinds r) }
    {
        let Term {
            value,
            fine,
            inside,
        } = left;
        let Term {
            value: right_value,
            fine: right_fine,
            inside: right_inside,
        } = right;
        let made = on_values(alloc, op, value, right_value)?;
        let then = after(alloc, right_fine, right_inside, made)?;
        let term = after(alloc, fine, inside, then)?;
        Ok(term)
    }

    /// What an operator makes of two outcomes. `&&`, `||` and `==>` look at the right one only where it decides.
    pub fn binary(alloc: Global, op: Op, left: Term, right: Term) -> Result<Term, NoMemory>
        ensures told { IfOk result (λ r. (m : Reading) (x y : Seen) → Tells x left m → Tells y right m → Tells (binary_lem op m.ints x y) r m) }
        ensures sorted { IfOk result (λ r. (p : Posed) (kinds : Kinds) → IsSortedTerm p kinds left → IsSortedTerm p kinds right → IsSortedTerm p kinds r) }
    {
        match op {
            Op::And => {
                let first = Truth::of(alloc, left)?;
                let second = Truth::of(alloc, right)?;
                let both = Truth::conjunction(alloc, first, second)?;
                Ok(both.term())
            }
            Op::Or => {
                let first = Truth::of(alloc, left)?;
                let second = Truth::of(alloc, right)?;
                let either = Truth::disjunction(alloc, first, second)?;
                Ok(either.term())
            }
            Op::Implies => {
                let first = Truth::of(alloc, left)?;
                let second = Truth::of(alloc, right)?;
                let implied = Truth::implication(alloc, first, second)?;
                Ok(implied.term())
            }
            _ => {
                let term = Term::strict(alloc, op, left, right)?;
                Ok(term)
            }
        }
    }
}
