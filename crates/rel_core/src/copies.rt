ghost use Rattle.std.specs.Prelude.{◌≡◌, IfOk};

use crate::formula::Formula;
use crate::numbers::NumExpr;
use crate::sets::RelExpr;
use no_memory::NoMemory;
use sqlite_items::{Boxed, Items};
use std::alloc::Global;

/// A copy of a set.
#[cycle(sets)]
fn set_copy(alloc: Global, set: &RelExpr) -> Result<Boxed<RelExpr>, NoMemory>
    ensures { IfOk result (λ r. r ≡ set.now) }
{
    match set {
        RelExpr::Var(relation) => Ok(Boxed::new(alloc, RelExpr::Var(*relation))?),
        RelExpr::Nil => Ok(Boxed::new(alloc, RelExpr::Nil)?),
        RelExpr::Object(object) => Ok(Boxed::new(alloc, RelExpr::Object(*object))?),
        RelExpr::Join(inner, relation) => {
            let inner = set_copy(alloc, inner.get())?;
            Ok(Boxed::new(alloc, RelExpr::Join(inner, *relation))?)
        }
        RelExpr::Reach(inner, relations) => {
            let inner = set_copy(alloc, inner.get())?;
            let relations = Items::from_slice(alloc, relations.as_slice())?;
            Ok(Boxed::new(alloc, RelExpr::Reach(inner, relations))?)
        }
    }
}

/// A copy of a number.
#[cycle(numbers)]
fn number_copy(alloc: Global, number: &NumExpr) -> Result<Boxed<NumExpr>, NoMemory>
    ensures { IfOk result (λ r. r ≡ number.now) }
{
    match number {
        NumExpr::Const(value) => Ok(Boxed::new(alloc, NumExpr::Const(*value))?),
        NumExpr::Var(relation) => Ok(Boxed::new(alloc, NumExpr::Var(*relation))?),
        NumExpr::At(set, relation) => {
            let set = set_copy(alloc, set.get())?;
            Ok(Boxed::new(alloc, NumExpr::At(set, *relation))?)
        }
        NumExpr::Sum(left, right) => {
            let left = number_copy(alloc, left.get())?;
            let right = number_copy(alloc, right.get())?;
            Ok(Boxed::new(alloc, NumExpr::Sum(left, right))?)
        }
        NumExpr::Diff(left, right) => {
            let left = number_copy(alloc, left.get())?;
            let right = number_copy(alloc, right.get())?;
            Ok(Boxed::new(alloc, NumExpr::Diff(left, right))?)
        }
        NumExpr::Product(left, right) => {
            let left = number_copy(alloc, left.get())?;
            let right = number_copy(alloc, right.get())?;
            Ok(Boxed::new(alloc, NumExpr::Product(left, right))?)
        }
        NumExpr::Count(set) => {
            let set = set_copy(alloc, set.get())?;
            Ok(Boxed::new(alloc, NumExpr::Count(set))?)
        }
    }
}

impl RelExpr {
    /// The same set once more. Linear in it.
    pub fn copy(&self, alloc: Global) -> Result<Boxed<RelExpr>, NoMemory>
        ensures { IfOk result (λ r. r ≡ self.now) }
    {
        let copied = set_copy(alloc, self)?;
        Ok(copied)
    }
}

impl NumExpr {
    /// The same number once more. Linear in it.
    pub fn copy(&self, alloc: Global) -> Result<Boxed<NumExpr>, NoMemory>
        ensures { IfOk result (λ r. r ≡ self.now) }
    {
        let copied = number_copy(alloc, self)?;
        Ok(copied)
    }
}

/// A copy of all parts.
#[cycle(formulas)]
fn part_copies(alloc: Global, parts: &[Formula]) -> Result<Items<Formula>, NoMemory>
    ensures { IfOk result (λ all. all ≡ parts.now) }
{
    let mut all = Items::new(alloc);
    for part in parts {
        let copied = formula_copy(alloc, part)?;
        all.push(copied.into_inner())?;
    }
    Ok(all)
}

/// A copy of a formula.
#[cycle(formulas)]
fn formula_copy(alloc: Global, formula: &Formula) -> Result<Boxed<Formula>, NoMemory>
    ensures { IfOk result (λ r. r ≡ formula.now) }
{
    match formula {
        Formula::Const(truth) => Ok(Boxed::new(alloc, Formula::Const(*truth))?),
        Formula::Flag(relation) => Ok(Boxed::new(alloc, Formula::Flag(*relation))?),
        Formula::FlagAt(set, relation) => {
            let set = set_copy(alloc, set.get())?;
            Ok(Boxed::new(alloc, Formula::FlagAt(set, *relation))?)
        }
        Formula::Subset(inner, outer) => {
            let inner = set_copy(alloc, inner.get())?;
            let outer = set_copy(alloc, outer.get())?;
            Ok(Boxed::new(alloc, Formula::Subset(inner, outer))?)
        }
        Formula::IsClass(set, class, relation) => {
            let set = set_copy(alloc, set.get())?;
            Ok(Boxed::new(alloc, Formula::IsClass(set, *class, *relation))?)
        }
        Formula::SameNum(left, right) => {
            let left = number_copy(alloc, left.get())?;
            let right = number_copy(alloc, right.get())?;
            Ok(Boxed::new(alloc, Formula::SameNum(left, right))?)
        }
        Formula::BelowNum(left, right) => {
            let left = number_copy(alloc, left.get())?;
            let right = number_copy(alloc, right.get())?;
            Ok(Boxed::new(alloc, Formula::BelowNum(left, right))?)
        }
        Formula::Fits(number) => {
            let number = number_copy(alloc, number.get())?;
            Ok(Boxed::new(alloc, Formula::Fits(number))?)
        }
        Formula::Changed(new, set, given, old) => {
            let set = set_copy(alloc, set.get())?;
            Ok(Boxed::new(alloc, Formula::Changed(*new, set, *given, *old))?)
        }
        Formula::Not(inner) => {
            let inner = formula_copy(alloc, inner.get())?;
            Ok(Boxed::new(alloc, Formula::Not(inner))?)
        }
        Formula::And(parts) => {
            let parts = part_copies(alloc, parts.as_slice())?;
            Ok(Boxed::new(alloc, Formula::And(parts))?)
        }
        Formula::Or(parts) => {
            let parts = part_copies(alloc, parts.as_slice())?;
            Ok(Boxed::new(alloc, Formula::Or(parts))?)
        }
        Formula::Same(left, right) => {
            let left = formula_copy(alloc, left.get())?;
            let right = formula_copy(alloc, right.get())?;
            Ok(Boxed::new(alloc, Formula::Same(left, right))?)
        }
    }
}

impl Formula {
    /// The same formula once more. Linear in it; a recursion goes as deep as formulas are nested.
    pub fn copy(&self, alloc: Global) -> Result<Boxed<Formula>, NoMemory>
        ensures { IfOk result (λ r. r ≡ self.now) }
    {
        let copied = formula_copy(alloc, self)?;
        Ok(copied)
    }
}
