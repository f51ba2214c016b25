//! The parts of actions that set a variable. Each is constant in time but for the look-ups of `Formula`'s builders.

ghost use Rattle.std.specs.Prelude.{◌≡◌, ◌+◌, IfOk};
ghost use Rattle.rel_core.specs.declared.relation.What.TheVariants as what;
ghost use Rattle.dyn_core.specs.declared.prog.Act.TheVariants as acts;
ghost use Rattle.dyn_steps.specs.Points.{slot as slot_lem};
ghost use Rattle.dyn_steps.specs.Looked.{kind_at};
ghost use Rattle.dyn_steps.specs.Paths.{IsStep, var_set};

use crate::equations::{
    is_difference, is_not_null, is_order, is_product, is_sameness, is_sum, is_this_cell,
    is_this_constant, same_variable,
};
use crate::part::{Basis, Front, Part};
use crate::point::with_var;
use heap_core::{Value, well_posed};
use no_memory::NoMemory;
use rel_core::{Formula, RelVar, What};
use sqlite_items::Boxed;
use std::alloc::Global;
use taco_unit::Kind;

/// The kind of a variable, where it has one.
pub(crate) fn kind_of(kinds: &[Kind], variable: u16) -> Kind
    ensures { result ≡ kind_at kinds.now variable }
{
    kinds
        .get(usize::from(variable))
        .copied()
        .unwrap_or(Kind::Int)
}

/// The index behind one, where there is one.
pub(crate) fn next_index(index: u32) -> Result<u32, NoMemory>
    ensures { IfOk result (λ next. next ≡ index + 1) }
{
    match index.checked_add(1) {
        Some(next) => Ok(next),
        None => Err(NoMemory),
    }
}

/// The relation of a variable at an index.
pub(crate) fn slot(variable: u16, index: u32) -> RelVar
    ensures { result ≡ slot_lem variable index }
{
    RelVar {
        what: What::Slot(variable),
        index,
    }
}

/// The part that gives a variable the next index.
fn set(from: Front, variable: u16, formula: Boxed<Formula>) -> Result<Part, NoMemory>
    ensures { IfOk result (λ r. r ≡ var_set from variable formula) }
{
    let next = next_index(from.next)?;
    let at = with_var(from.at, variable, from.next);
    Ok(Part {
        formula,
        end: Front { at, next },
    })
}

/// A variable is set to another of its kind.
pub fn copy(
    alloc: Global,
    basis: Basis<'_>,
    from: Front,
    target: u16,
    source: u16,
) -> Result<Part, NoMemory>
    ensures { IfOk result (IsStep basis.entry.problem.now basis.entry.kinds.now (acts.Copy target source) from) }
{
    well_posed(basis.problem);
    let kind = kind_of(basis.kinds, target);
    let new = slot(target, from.next);
    let old = from.at.slot(source);
    let formula = same_variable(alloc, kind, new, old)?;
    let part = set(from, target, formula)?;
    Ok(part)
}

/// A variable is set to a constant.
pub fn constant(
    alloc: Global,
    basis: Basis<'_>,
    from: Front,
    target: u16,
    value: Value,
) -> Result<Part, NoMemory>
    ensures { IfOk result (IsStep basis.entry.problem.now basis.entry.kinds.now (acts.Const target value) from) }
{
    well_posed(basis.problem);
    let new = slot(target, from.next);
    let formula = is_this_constant(alloc, new, value)?;
    let part = set(from, target, formula)?;
    Ok(part)
}

/// A variable is set to the sum of two others.
pub fn sum(
    alloc: Global,
    basis: Basis<'_>,
    from: Front,
    target: u16,
    left: u16,
    right: u16,
) -> Result<Part, NoMemory>
    ensures { IfOk result (IsStep basis.entry.problem.now basis.entry.kinds.now (acts.Sum target left right) from) }
{
    well_posed(basis.problem);
    let new = slot(target, from.next);
    let first = from.at.slot(left);
    let second = from.at.slot(right);
    let formula = is_sum(alloc, new, first, second)?;
    let part = set(from, target, formula)?;
    Ok(part)
}

/// A variable is set to another less a third.
pub fn difference(
    alloc: Global,
    basis: Basis<'_>,
    from: Front,
    target: u16,
    left: u16,
    right: u16,
) -> Result<Part, NoMemory>
    ensures { IfOk result (IsStep basis.entry.problem.now basis.entry.kinds.now (acts.Diff target left right) from) }
{
    well_posed(basis.problem);
    let new = slot(target, from.next);
    let first = from.at.slot(left);
    let second = from.at.slot(right);
    let formula = is_difference(alloc, new, first, second)?;
    let part = set(from, target, formula)?;
    Ok(part)
}

/// A variable is set to the product of two others.
pub fn product(
    alloc: Global,
    basis: Basis<'_>,
    from: Front,
    target: u16,
    left: u16,
    right: u16,
) -> Result<Part, NoMemory>
    ensures { IfOk result (IsStep basis.entry.problem.now basis.entry.kinds.now (acts.Product target left right) from) }
{
    well_posed(basis.problem);
    let new = slot(target, from.next);
    let first = from.at.slot(left);
    let second = from.at.slot(right);
    let formula = is_product(alloc, new, first, second)?;
    let part = set(from, target, formula)?;
    Ok(part)
}

/// A flag is set to whether two variables of one kind are the same.
pub fn same(
    alloc: Global,
    basis: Basis<'_>,
    from: Front,
    target: u16,
    left: u16,
    right: u16,
) -> Result<Part, NoMemory>
    ensures { IfOk result (IsStep basis.entry.problem.now basis.entry.kinds.now (acts.Same target left right) from) }
{
    well_posed(basis.problem);
    let kind = kind_of(basis.kinds, left);
    let new = slot(target, from.next);
    let first = from.at.slot(left);
    let second = from.at.slot(right);
    let formula = is_sameness(alloc, new, kind, first, second)?;
    let part = set(from, target, formula)?;
    Ok(part)
}

/// A flag is set to whether one number is below another.
pub fn below(
    alloc: Global,
    basis: Basis<'_>,
    from: Front,
    target: u16,
    left: u16,
    right: u16,
) -> Result<Part, NoMemory>
    ensures { IfOk result (IsStep basis.entry.problem.now basis.entry.kinds.now (acts.Below target left right) from) }
{
    well_posed(basis.problem);
    let new = slot(target, from.next);
    let first = from.at.slot(left);
    let second = from.at.slot(right);
    let formula = is_order(alloc, new, first, second)?;
    let part = set(from, target, formula)?;
    Ok(part)
}

/// A variable is set to a field of the object in another, which is not null.
pub fn read(
    alloc: Global,
    basis: Basis<'_>,
    from: Front,
    target: u16,
    object: u16,
    field: u8,
) -> Result<Part, NoMemory>
    ensures { IfOk result (IsStep basis.entry.problem.now basis.entry.kinds.now (acts.Read target object field) from) }
{
    well_posed(basis.problem);
    let kind = kind_of(basis.kinds, target);
    let new = slot(target, from.next);
    let through = from.at.slot(object);
    let cells = from.at.field(field);
    let there = is_not_null(alloc, through)?;
    let equal = is_this_cell(alloc, kind, new, through, cells)?;
    let formula = Formula::both(alloc, there, equal)?;
    let part = set(from, target, formula)?;
    Ok(part)
}
