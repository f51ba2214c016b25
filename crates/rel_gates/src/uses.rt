ghost use Rattle.std.specs.Prelude.{◌≡◌, ◌+◌, ◌++◌, ◌∷◌, [], length, map, flat_map, OnOk};
ghost use Rattle.std.specs.Option.{option_map_or};
ghost use Rattle.rel_core.specs.declared.relation.RelVar.{RelVar};
ghost use Rattle.rel_core.specs.Uses.{AsSet, AsClass};
ghost use Rattle.rel_gates.specs.Naming.{set_uses, number_uses, uses as uses_lem, spread_use, changed_uses, wanted_each, SetFits, NumberFits, FormulaFits, PartsFit};

use crate::widths::{class_bits, row_count, spread_width};
use heap_core::Problem;
use no_memory::NoMemory;
use rel_core::{Formula, NumExpr, RelExpr, RelVar};

/// Relations that have references at each object.
fn add_each(
    list: &mut Vec<(RelVar, usize)>,
    problem: &Problem,
    relations: &[RelVar],
) -> Result<(), NoMemory>
    ensures added { OnOk result (list.new.items ≡ list.old.items ++ map (wanted_each problem.now AsSet) relations.now) }
{
    let objects = usize::from(problem.scope.objects);
    let count = objects * (objects + 1);
    for relation in relations {
        list.push((*relation, count))?;
    }
    Ok(())
}

/// The relations that a set uses, each with the number of gates that its use wants, behind those of
/// the list.
pub(crate) fn add_set(
    list: &mut Vec<(RelVar, usize)>,
    problem: &Problem,
    set: &RelExpr,
) -> Result<(), NoMemory>
    ensures added { OnOk result (list.new.items ≡ list.old.items ++ set_uses problem.now set.now) }
    ensures fits { OnOk result (SetFits problem.now set.now) }
{
    match set {
        RelExpr::Var(relation) => {
            let count = usize::from(problem.scope.objects) + 1;
            list.push((*relation, count))?;
            Ok(())
        }
        RelExpr::Nil => Ok(()),
        RelExpr::Object(_) => Ok(()),
        RelExpr::Join(inner, relation) => {
            add_set(list, problem, inner.get())?;
            let relations = [*relation];
            add_each(list, problem, &relations)?;
            Ok(())
        }
        RelExpr::Reach(inner, relations) => {
            add_set(list, problem, inner.get())?;
            add_each(list, problem, relations.as_slice())?;
            Ok(())
        }
    }
}

/// The relations that a number uses, each with the number of gates that its use wants, behind those of
/// the list.
pub(crate) fn add_number(
    list: &mut Vec<(RelVar, usize)>,
    problem: &Problem,
    number: &NumExpr,
) -> Result<(), NoMemory>
    ensures added { OnOk result (list.new.items ≡ list.old.items ++ number_uses problem.now number.now) }
    ensures fits { OnOk result (NumberFits problem.now number.now) }
{
    match number {
        NumExpr::Const(_) => Ok(()),
        NumExpr::Var(relation) => {
            list.push((*relation, usize::from(problem.scope.ints)))?;
            Ok(())
        }
        NumExpr::At(set, relation) => {
            add_set(list, problem, set.get())?;
            let count = usize::from(problem.scope.objects) * usize::from(problem.scope.ints);
            list.push((*relation, count))?;
            Ok(())
        }
        NumExpr::Sum(a, b) => {
            add_number(list, problem, a.get())?;
            add_number(list, problem, b.get())?;
            Ok(())
        }
        NumExpr::Diff(a, b) => {
            add_number(list, problem, a.get())?;
            add_number(list, problem, b.get())?;
            Ok(())
        }
        NumExpr::Product(a, b) => {
            add_number(list, problem, a.get())?;
            add_number(list, problem, b.get())?;
            Ok(())
        }
        NumExpr::Count(set) => {
            add_set(list, problem, set.get())?;
            Ok(())
        }
    }
}

/// A relation that has a class number at each object.
fn add_class(
    list: &mut Vec<(RelVar, usize)>,
    problem: &Problem,
    relation: RelVar,
) -> Result<(), NoMemory>
    ensures added { OnOk result (list.new.items ≡ list.old.items ++ wanted_each problem.now AsClass relation ∷ []) }
{
    let count = usize::from(problem.scope.objects) * class_bits(problem);
    list.push((relation, count))?;
    Ok(())
}

/// The relations of a change, where the one that changes is no variable: itself, what is given, and
/// what it was.
fn add_changed(
    list: &mut Vec<(RelVar, usize)>,
    problem: &Problem,
    new: RelVar,
    given: RelVar,
    old: RelVar,
) -> Result<(), NoMemory>
    ensures added { OnOk result (list.new.items ≡ list.old.items ++ option_map_or (changed_uses problem.now new given old) (spread_use problem.now new) []) }
{
    match spread_width(problem, new.what) {
        Some(width) => {
            let each = usize::from(problem.scope.objects) * width;
            let rows = row_count(problem, given.what) * width;
            list.push((new, each))?;
            list.push((given, rows))?;
            list.push((old, each))?;
            Ok(())
        }
        None => Ok(()),
    }
}

/// The relations that parts of a formula use, behind those of the list.
#[cycle(formula_uses)]
fn add_parts(
    list: &mut Vec<(RelVar, usize)>,
    problem: &Problem,
    parts: &[Formula],
) -> Result<(), NoMemory>
    ensures added { OnOk result (list.new.items ≡ list.old.items ++ flat_map (uses_lem problem.now) parts.now) }
    ensures fits { OnOk result (PartsFit problem.now parts.now) }
{
    for part in parts {
        add_formula(list, problem, part)?;
    }
    Ok(())
}

/// The relations that a formula uses, each with the number of gates that its use wants, behind those of
/// the list.
#[cycle(formula_uses)]
pub(crate) fn add_formula(
    list: &mut Vec<(RelVar, usize)>,
    problem: &Problem,
    formula: &Formula,
) -> Result<(), NoMemory>
    ensures added { OnOk result (list.new.items ≡ list.old.items ++ uses_lem problem.now formula.now) }
    ensures fits { OnOk result (FormulaFits problem.now formula.now) }
{
    match formula {
        Formula::Const(_) => Ok(()),
        Formula::Flag(relation) => {
            list.push((*relation, 1))?;
            Ok(())
        }
        Formula::FlagAt(set, relation) => {
            add_set(list, problem, set.get())?;
            list.push((*relation, usize::from(problem.scope.objects)))?;
            Ok(())
        }
        Formula::Subset(a, b) => {
            add_set(list, problem, a.get())?;
            add_set(list, problem, b.get())?;
            Ok(())
        }
        Formula::IsClass(set, _, relation) => {
            add_set(list, problem, set.get())?;
            add_class(list, problem, *relation)?;
            Ok(())
        }
        Formula::SameNum(a, b) => {
            add_number(list, problem, a.get())?;
            add_number(list, problem, b.get())?;
            Ok(())
        }
        Formula::BelowNum(a, b) => {
            add_number(list, problem, a.get())?;
            add_number(list, problem, b.get())?;
            Ok(())
        }
        Formula::Fits(a) => {
            add_number(list, problem, a.get())?;
            Ok(())
        }
        Formula::Changed(new, set, given, old) => {
            add_set(list, problem, set.get())?;
            add_changed(list, problem, *new, *given, *old)?;
            Ok(())
        }
        Formula::Not(a) => {
            add_formula(list, problem, a.get())?;
            Ok(())
        }
        Formula::And(parts) => {
            add_parts(list, problem, parts.as_slice())?;
            Ok(())
        }
        Formula::Or(parts) => {
            add_parts(list, problem, parts.as_slice())?;
            Ok(())
        }
        Formula::Same(a, b) => {
            add_formula(list, problem, a.get())?;
            add_formula(list, problem, b.get())?;
            Ok(())
        }
    }
}
