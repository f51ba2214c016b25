ghost use Rattle.std.specs.Prelude.{◌≡◌, IfOk, IsTrue};
ghost use Rattle.taco_unit.specs.declared.expr.Op.TheVariants as o;
ghost use Rattle.heap_core.specs.declared.value.Value.{Value};
ghost use Rattle.heap_core.specs.Outcomes.{negative, operated};
ghost use Rattle.heap_core.specs.Posed.{Posed};
ghost use Rattle.rel_core.specs.Reading.{Reading};
ghost use Rattle.rel_core.specs.Uses.{Kinds, is_sorted_number};
ghost use Rattle.clause_terms.specs.declared.term.Shape.TheVariants.{Number as number_shape};
ghost use Rattle.clause_terms.specs.Terms.{HasValue, IsSortedTerm, Tells};

use crate::term::{Shape, Term};
use no_memory::NoMemory;
use rel_core::{Formula, NumExpr};
use sqlite_items::Boxed;
use std::alloc::Global;
use taco_unit::Op;

/// The number with the other sign.
pub(crate) fn negated(alloc: Global, number: Boxed<NumExpr>) -> Result<Term, NoMemory>
    ensures told { IfOk result (λ r. (m : Reading) (v : Value) → HasValue m (number_shape number) v → Tells (negative m.ints v) r m) }
    ensures sorted { IfOk result (λ r. (p : Posed) (kinds : Kinds) → IsTrue (is_sorted_number p kinds number) → IsSortedTerm p kinds r) }
{
    let zero = NumExpr::constant(alloc, 0)?;
    let made = NumExpr::difference(alloc, zero, number)?;
    let term = Term::number(alloc, made)?;
    Ok(term)
}

fn sum(alloc: Global, x: Boxed<NumExpr>, y: Boxed<NumExpr>) -> Result<Term, NoMemory>
    ensures told { IfOk result (λ r. (m : Reading) (v u : Value) → HasValue m (number_shape x) v → HasValue m (number_shape y) u → Tells (operated o.Add m.ints v u) r m) }
    ensures sorted { IfOk result (λ r. (p : Posed) (kinds : Kinds) → IsTrue (is_sorted_number p kinds x) → IsTrue (is_sorted_number p kinds y) → IsSortedTerm p kinds r) }
{
    let made = NumExpr::sum(alloc, x, y)?;
    let term = Term::number(alloc, made)?;
    Ok(term)
}

fn difference(alloc: Global, x: Boxed<NumExpr>, y: Boxed<NumExpr>) -> Result<Term, NoMemory>
    ensures told { IfOk result (λ r. (m : Reading) (v u : Value) → HasValue m (number_shape x) v → HasValue m (number_shape y) u → Tells (operated o.Sub m.ints v u) r m) }
    ensures sorted { IfOk result (λ r. (p : Posed) (kinds : Kinds) → IsTrue (is_sorted_number p kinds x) → IsTrue (is_sorted_number p kinds y) → IsSortedTerm p kinds r) }
{
    let made = NumExpr::difference(alloc, x, y)?;
    let term = Term::number(alloc, made)?;
    Ok(term)
}

fn product(alloc: Global, x: Boxed<NumExpr>, y: Boxed<NumExpr>) -> Result<Term, NoMemory>
    ensures told { IfOk result (λ r. (m : Reading) (v u : Value) → HasValue m (number_shape x) v → HasValue m (number_shape y) u → Tells (operated o.Mul m.ints v u) r m) }
    ensures sorted { IfOk result (λ r. (p : Posed) (kinds : Kinds) → IsTrue (is_sorted_number p kinds x) → IsTrue (is_sorted_number p kinds y) → IsSortedTerm p kinds r) }
{
    let made = NumExpr::product(alloc, x, y)?;
    let term = Term::number(alloc, made)?;
    Ok(term)
}

/// Both numbers are one, or not.
fn equal(alloc: Global, x: Boxed<NumExpr>, y: Boxed<NumExpr>) -> Result<Term, NoMemory>
    ensures told { IfOk result (λ r. (m : Reading) (v u : Value) → HasValue m (number_shape x) v → HasValue m (number_shape y) u → Tells (operated o.Eq m.ints v u) r m) }
    ensures sorted { IfOk result (λ r. (p : Posed) (kinds : Kinds) → IsTrue (is_sorted_number p kinds x) → IsTrue (is_sorted_number p kinds y) → IsSortedTerm p kinds r) }
{
    let same = Formula::same_number(alloc, x, y)?;
    let term = Term::sure(alloc, Shape::Truth(same))?;
    Ok(term)
}

fn unequal(alloc: Global, x: Boxed<NumExpr>, y: Boxed<NumExpr>) -> Result<Term, NoMemory>
    ensures told { IfOk result (λ r. (m : Reading) (v u : Value) → HasValue m (number_shape x) v → HasValue m (number_shape y) u → Tells (operated o.Ne m.ints v u) r m) }
    ensures sorted { IfOk result (λ r. (p : Posed) (kinds : Kinds) → IsTrue (is_sorted_number p kinds x) → IsTrue (is_sorted_number p kinds y) → IsSortedTerm p kinds r) }
{
    let same = Formula::same_number(alloc, x, y)?;
    let other = Formula::not(alloc, same)?;
    let term = Term::sure(alloc, Shape::Truth(other))?;
    Ok(term)
}

/// The first number is below the second, or not.
fn below(alloc: Global, x: Boxed<NumExpr>, y: Boxed<NumExpr>) -> Result<Term, NoMemory>
    ensures told { IfOk result (λ r. (m : Reading) (v u : Value) → HasValue m (number_shape x) v → HasValue m (number_shape y) u → Tells (operated o.Lt m.ints v u) r m) }
    ensures sorted { IfOk result (λ r. (p : Posed) (kinds : Kinds) → IsTrue (is_sorted_number p kinds x) → IsTrue (is_sorted_number p kinds y) → IsSortedTerm p kinds r) }
{
    let less = Formula::below(alloc, x, y)?;
    let term = Term::sure(alloc, Shape::Truth(less))?;
    Ok(term)
}

fn not_below(alloc: Global, x: Boxed<NumExpr>, y: Boxed<NumExpr>) -> Result<Term, NoMemory>
    ensures told { IfOk result (λ r. (m : Reading) (v u : Value) → HasValue m (number_shape x) v → HasValue m (number_shape y) u → Tells (operated o.Ge m.ints v u) r m) }
    ensures sorted { IfOk result (λ r. (p : Posed) (kinds : Kinds) → IsTrue (is_sorted_number p kinds x) → IsTrue (is_sorted_number p kinds y) → IsSortedTerm p kinds r) }
{
    let less = Formula::below(alloc, x, y)?;
    let other = Formula::not(alloc, less)?;
    let term = Term::sure(alloc, Shape::Truth(other))?;
    Ok(term)
}

/// What an operator makes of two numbers.
pub(crate) fn on_numbers(
    alloc: Global,
    op: Op,
    x: Boxed<NumExpr>,
    y: Boxed<NumExpr>,
) -> Result<Term, NoMemory>
    ensures told { IfOk result (λ r. (m : Reading) (v u : Value) → HasValue m (number_shape x) v → HasValue m (number_shape y) u → Tells (operated op m.ints v u) r m) }
    ensures sorted { IfOk result (λ r. (p : Posed) (kinds : Kinds) → IsTrue (is_sorted_number p kinds x) → IsTrue (is_sorted_number p kinds y) → IsSortedTerm p kinds r) }
{
    match op {
        Op::Add => {
            let term = sum(alloc, x, y)?;
            Ok(term)
        }
        Op::Sub => {
            let term = difference(alloc, x, y)?;
            Ok(term)
        }
        Op::Mul => {
            let term = product(alloc, x, y)?;
            Ok(term)
        }
        Op::Eq => {
            let term = equal(alloc, x, y)?;
            Ok(term)
        }
        Op::Ne => {
            let term = unequal(alloc, x, y)?;
            Ok(term)
        }
        Op::Lt => {
            let term = below(alloc, x, y)?;
            Ok(term)
        }
        Op::Le => {
            let term = not_below(alloc, y, x)?;
            Ok(term)
        }
        Op::Gt => {
            let term = below(alloc, y, x)?;
            Ok(term)
        }
        Op::Ge => {
            let term = not_below(alloc, x, y)?;
            Ok(term)
        }
        Op::And => {
            let term = Term::missing(alloc)?;
            Ok(term)
        }
        Op::Or => {
            let term = Term::missing(alloc)?;
            Ok(term)
        }
        Op::Implies => {
            let term = Term::missing(alloc)?;
            Ok(term)
        }
        Op::Iff => {
            let term = Term::missing(alloc)?;
            Ok(term)
        }
    }
}
