ghost use Rattle.std.specs.Prelude.{◌≡◌, Bool, true, false, IfOk, IsTrue};
ghost use Rattle.std.specs.List.{list_all, list_any};
ghost use Rattle.heap_core.specs.Posed.{Posed};
ghost use Rattle.rel_core.specs.declared.formula.Formula.{Formula};
ghost use Rattle.rel_core.specs.declared.formula.Formula.TheVariants.{Const};
ghost use Rattle.rel_core.specs.Reading.{Reading};
ghost use Rattle.rel_core.specs.Meaning.{holds};
ghost use Rattle.rel_core.specs.Uses.{Kinds, is_sorted};

use crate::formula::Formula;
use no_memory::NoMemory;
use sqlite_items::{Boxed, Items};
use std::alloc::Global;

/// Whether a part is this constant.
fn has_constant(parts: &[Formula], truth: bool) -> bool
    ensures { (test : Formula → Bool) → test (Const truth) ≡ false → result ≡ true → list_all test parts.now ≡ false }
{
    for part in parts {
        if part.as_constant() == Some(truth) {
            return true;
        }
    }
    false
}

/// The parts that are not this constant, the last first.
fn turned(alloc: Global, parts: Items<Formula>, truth: bool) -> Result<Items<Formula>, NoMemory>
    ensures { IfOk result (λ all. (test : Formula → Bool) → test (Const truth) ≡ true → list_all test all ≡ list_all test parts) }
{
    let mut left = parts;
    let mut all = Items::new(alloc);
    while let Some(part) = left.pop() {
        if part.as_constant() != Some(truth) {
            all.push(part)?;
        }
    }
    Ok(all)
}

/// The parts that are not this constant, in order.
fn without_constant(
    alloc: Global,
    parts: Items<Formula>,
    truth: bool,
) -> Result<Items<Formula>, NoMemory>
    ensures { IfOk result (λ all. (test : Formula → Bool) → test (Const truth) ≡ true → list_all test all ≡ list_all test parts) }
{
    let turned_once = turned(alloc, parts, truth)?;
    let in_order = turned(alloc, turned_once, truth)?;
    Ok(in_order)
}

/// All parts: one part is itself, and of none this is true.
#[tactic(auto, using(crate::proofs::Forms::holds_and, crate::proofs::Joining::all_of_one))]
fn conjunction_of(alloc: Global, parts: Items<Formula>) -> Result<Boxed<Formula>, NoMemory>
    ensures meaning { IfOk result (λ r. (m : Reading) → holds r m ≡ list_all (λ a. holds a m) parts) }
    ensures sorted { IfOk result (λ r. (p : Posed) (kinds : Kinds) → IsTrue (list_all (is_sorted p kinds) parts) → IsTrue (is_sorted p kinds r)) }
{
    let mut left = parts;
    match left.pop() {
        None => {
            let constant = Formula::constant(alloc, true)?;
            Ok(constant)
        }
        Some(last) => {
            if left.is_empty() {
                Ok(Boxed::new(alloc, last)?)
            } else {
                left.push(last)?;
                Ok(Boxed::new(alloc, Formula::And(left))?)
            }
        }
    }
}

/// Some part: one part is itself, and of none this is false.
#[tactic(auto, using(crate::proofs::Forms::holds_or, crate::proofs::Joining::any_of_one))]
fn disjunction_of(alloc: Global, parts: Items<Formula>) -> Result<Boxed<Formula>, NoMemory>
    ensures meaning { IfOk result (λ r. (m : Reading) → holds r m ≡ list_any (λ a. holds a m) parts) }
    ensures sorted { IfOk result (λ r. (p : Posed) (kinds : Kinds) → IsTrue (list_all (is_sorted p kinds) parts) → IsTrue (is_sorted p kinds r)) }
{
    let mut left = parts;
    match left.pop() {
        None => {
            let constant = Formula::constant(alloc, false)?;
            Ok(constant)
        }
        Some(last) => {
            if left.is_empty() {
                Ok(Boxed::new(alloc, last)?)
            } else {
                left.push(last)?;
                Ok(Boxed::new(alloc, Formula::Or(left))?)
            }
        }
    }
}

/// Connectives of any number of formulas, without the constants among them. Each call is linear in the
/// number of parts.
impl Formula {
    /// All parts hold; of none, this is true.
    pub fn all(alloc: Global, parts: Items<Formula>) -> Result<Boxed<Formula>, NoMemory>
        ensures meaning { IfOk result (λ r. (m : Reading) → holds r m ≡ list_all (λ a. holds a m) parts) }
        ensures sorted { IfOk result (λ r. (p : Posed) (kinds : Kinds) → IsTrue (list_all (is_sorted p kinds) parts) → IsTrue (is_sorted p kinds r)) }
    {
        let open = without_constant(alloc, parts, true)?;
        if has_constant(open.as_slice(), false) {
            let never = Formula::constant(alloc, false)?;
            Ok(never)
        } else {
            let all = conjunction_of(alloc, open)?;
            Ok(all)
        }
    }

    /// Some part holds; of none, this is false.
    pub fn any(alloc: Global, parts: Items<Formula>) -> Result<Boxed<Formula>, NoMemory>
        ensures meaning { IfOk result (λ r. (m : Reading) → holds r m ≡ list_any (λ a. holds a m) parts) }
        ensures sorted { IfOk result (λ r. (p : Posed) (kinds : Kinds) → IsTrue (list_all (is_sorted p kinds) parts) → IsTrue (is_sorted p kinds r)) }
    {
        let open = without_constant(alloc, parts, false)?;
        if has_constant(open.as_slice(), true) {
            let always = Formula::constant(alloc, true)?;
            Ok(always)
        } else {
            let some = disjunction_of(alloc, open)?;
            Ok(some)
        }
    }
}
