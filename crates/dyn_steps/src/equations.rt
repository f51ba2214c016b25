//! Formulas that say what a variable is. Each call is constant in time.

ghost use Rattle.std.specs.Prelude.{◌≡◌, ◌&&◌, IfOk, IsTrue, Some, ◌+ℤ◌, ◌-ℤ◌, ◌*ℤ◌, int_lt};
ghost use Rattle.heap_core.specs.Outcomes.{same_flag, is_null};
ghost use Rattle.heap_core.specs.Posed.{Posed};
ghost use Rattle.rel_core.specs.Reading.{Reading};
ghost use Rattle.rel_core.specs.Meaning.{fitting, holds, is_subset, joined, number_of, set_of, with_both};
ghost use Rattle.rel_core.specs.Uses.{Kinds, AsFlag, AsNumber, AsSet, is_sorted, is_sorted_number, is_sorted_set, is_spread, is_variable, use_of_kind};
ghost use Rattle.taco_unit.specs.declared.kind.Kind.{Kind as TheKind};
ghost use Rattle.taco_unit.specs.declared.kind.Kind.TheVariants as kind;
ghost use Rattle.dyn_core.specs.Kinds.{takes_constant};
ghost use Rattle.dyn_steps.specs.Meanings.{same_sets, same_variables, is_number, is_constant, is_through, is_cell};

use heap_core::Value;
use no_memory::NoMemory;
use rel_core::{Formula, NumExpr, RelExpr, RelVar};
use sqlite_items::Boxed;
use std::alloc::Global;
use taco_unit::Kind;

/// Two variables for numbers are the same.
fn same_numbers(alloc: Global, left: RelVar, right: RelVar) -> Result<Boxed<Formula>, NoMemory>
    ensures meaning { IfOk result (λ r. (m : Reading) → holds r m ≡ same_variables m kind.Int left right) }
    ensures sorted { IfOk result (λ r. (p : Posed) (kinds : Kinds) → IsTrue (is_variable p kinds AsNumber left) → IsTrue (is_variable p kinds AsNumber right) → IsTrue (is_sorted p kinds r)) }
{
    let left = NumExpr::variable(alloc, left)?;
    let right = NumExpr::variable(alloc, right)?;
    let same = Formula::same_number(alloc, left, right)?;
    Ok(same)
}

/// Two variables for truth values are the same.
fn same_flags(alloc: Global, left: RelVar, right: RelVar) -> Result<Boxed<Formula>, NoMemory>
    ensures meaning { IfOk result (λ r. (m : Reading) → holds r m ≡ same_variables m kind.Flag left right) }
    ensures sorted { IfOk result (λ r. (p : Posed) (kinds : Kinds) → IsTrue (is_variable p kinds AsFlag left) → IsTrue (is_variable p kinds AsFlag right) → IsTrue (is_sorted p kinds r)) }
{
    let left = Formula::flag(alloc, left)?;
    let right = Formula::flag(alloc, right)?;
    let same = Formula::same(alloc, left, right)?;
    Ok(same)
}

/// Two variables for references are the same.
fn same_references(alloc: Global, left: RelVar, right: RelVar) -> Result<Boxed<Formula>, NoMemory>
    ensures meaning { IfOk result (λ r. (m : Reading) → holds r m ≡ same_sets m (m.refs left 0) (m.refs right 0)) }
    ensures sorted { IfOk result (λ r. (p : Posed) (kinds : Kinds) → IsTrue (is_variable p kinds AsSet left) → IsTrue (is_variable p kinds AsSet right) → IsTrue (is_sorted p kinds r)) }
{
    let inner = RelExpr::variable(alloc, left)?;
    let outer = RelExpr::variable(alloc, right)?;
    let within = Formula::subset(alloc, inner, outer)?;
    let inner = RelExpr::variable(alloc, right)?;
    let outer = RelExpr::variable(alloc, left)?;
    let around = Formula::subset(alloc, inner, outer)?;
    let same = Formula::both(alloc, within, around)?;
    Ok(same)
}

/// Two variables of a kind have one value.
pub(crate) fn same_variable(
    alloc: Global,
    kind: Kind,
    left: RelVar,
    right: RelVar,
) -> Result<Boxed<Formula>, NoMemory>
    ensures meaning { IfOk result (λ r. (m : Reading) → holds r m ≡ same_variables m kind left right) }
    ensures sorted { IfOk result (λ r. (p : Posed) (kinds : Kinds)
        → IsTrue (is_variable p kinds (use_of_kind kind) left) → IsTrue (is_variable p kinds (use_of_kind kind) right)
        → IsTrue (is_sorted p kinds r)) }
{
    match kind {
        Kind::Int => {
            let same = same_numbers(alloc, left, right)?;
            Ok(same)
        }
        Kind::Flag => {
            let same = same_flags(alloc, left, right)?;
            Ok(same)
        }
        Kind::Ref(_) => {
            let same = same_references(alloc, left, right)?;
            Ok(same)
        }
    }
}

/// A variable is this number, where there is one.
fn is_this_number(
    alloc: Global,
    variable: RelVar,
    number: Boxed<NumExpr>,
) -> Result<Boxed<Formula>, NoMemory>
    ensures meaning { IfOk result (λ r. (m : Reading) → holds r m ≡ is_number m variable (number_of number m)) }
    ensures sorted { IfOk result (λ r. (p : Posed) (kinds : Kinds) → IsTrue (is_variable p kinds AsNumber variable) → IsTrue (is_sorted_number p kinds number) → IsTrue (is_sorted p kinds r)) }
{
    let variable = NumExpr::variable(alloc, variable)?;
    let same = Formula::same_number(alloc, variable, number)?;
    Ok(same)
}

/// A variable is this truth value.
pub(crate) fn is_this_flag(
    alloc: Global,
    variable: RelVar,
    truth: bool,
) -> Result<Boxed<Formula>, NoMemory>
    ensures meaning { IfOk result (λ r. (m : Reading) → holds r m ≡ same_flag (m.flag variable 0) truth) }
    ensures sorted { IfOk result (λ r. (p : Posed) (kinds : Kinds) → IsTrue (is_variable p kinds AsFlag variable) → IsTrue (is_sorted p kinds r)) }
{
    let variable = Formula::flag(alloc, variable)?;
    let truth = Formula::constant(alloc, truth)?;
    let same = Formula::same(alloc, variable, truth)?;
    Ok(same)
}

/// A variable is null.
fn is_nil(alloc: Global, variable: RelVar) -> Result<Boxed<Formula>, NoMemory>
    ensures meaning { IfOk result (λ r. (m : Reading) → holds r m ≡ same_sets m (m.refs variable 0) is_null) }
    ensures sorted { IfOk result (λ r. (p : Posed) (kinds : Kinds) → IsTrue (is_variable p kinds AsSet variable) → IsTrue (is_sorted p kinds r)) }
{
    let inner = RelExpr::variable(alloc, variable)?;
    let outer = RelExpr::nil(alloc)?;
    let within = Formula::subset(alloc, inner, outer)?;
    let inner = RelExpr::nil(alloc)?;
    let outer = RelExpr::variable(alloc, variable)?;
    let around = Formula::subset(alloc, inner, outer)?;
    let same = Formula::both(alloc, within, around)?;
    Ok(same)
}

/// A variable is a constant, where it fits.
pub(crate) fn is_this_constant(
    alloc: Global,
    variable: RelVar,
    value: Value,
) -> Result<Boxed<Formula>, NoMemory>
    ensures meaning { IfOk result (λ r. (m : Reading) → holds r m ≡ is_constant m variable value) }
    ensures sorted { IfOk result (λ r. (p : Posed) (kinds : Kinds) (k : TheKind) → IsTrue (takes_constant value k)
        → IsTrue (is_variable p kinds (use_of_kind k) variable) → IsTrue (is_sorted p kinds r)) }
{
    match value {
        Value::Null => {
            let same = is_nil(alloc, variable)?;
            Ok(same)
        }
        Value::Num(number) => {
            let number = NumExpr::constant(alloc, number)?;
            let same = is_this_number(alloc, variable, number)?;
            Ok(same)
        }
        Value::Flag(truth) => {
            let same = is_this_flag(alloc, variable, truth)?;
            Ok(same)
        }
        Value::Obj(_) => {
            let never = Formula::constant(alloc, false)?;
            Ok(never)
        }
    }
}

/// A variable is the sum of two others, where that lies in the width.
pub(crate) fn is_sum(
    alloc: Global,
    variable: RelVar,
    left: RelVar,
    right: RelVar,
) -> Result<Boxed<Formula>, NoMemory>
    ensures meaning { IfOk result (λ r. (m : Reading) → holds r m ≡ is_number m variable (fitting m.ints (m.number left 0 +ℤ m.number right 0))) }
    ensures sorted { IfOk result (λ r. (p : Posed) (kinds : Kinds) → IsTrue (is_variable p kinds AsNumber variable)
        → IsTrue (is_variable p kinds AsNumber left) → IsTrue (is_variable p kinds AsNumber right)
        → IsTrue (is_sorted p kinds r)) }
{
    let left = NumExpr::variable(alloc, left)?;
    let right = NumExpr::variable(alloc, right)?;
    let sum = NumExpr::sum(alloc, left, right)?;
    let same = is_this_number(alloc, variable, sum)?;
    Ok(same)
}

/// A variable is the first of two others less the second, likewise.
pub(crate) fn is_difference(
    alloc: Global,
    variable: RelVar,
    left: RelVar,
    right: RelVar,
) -> Result<Boxed<Formula>, NoMemory>
    ensures meaning { IfOk result (λ r. (m : Reading) → holds r m ≡ is_number m variable (fitting m.ints (m.number left 0 -ℤ m.number right 0))) }
    ensures sorted { IfOk result (λ r. (p : Posed) (kinds : Kinds) → IsTrue (is_variable p kinds AsNumber variable)
        → IsTrue (is_variable p kinds AsNumber left) → IsTrue (is_variable p kinds AsNumber right)
        → IsTrue (is_sorted p kinds r)) }
{
    let left = NumExpr::variable(alloc, left)?;
    let right = NumExpr::variable(alloc, right)?;
    let difference = NumExpr::difference(alloc, left, right)?;
    let same = is_this_number(alloc, variable, difference)?;
    Ok(same)
}

/// A variable is the product of two others, likewise.
pub(crate) fn is_product(
    alloc: Global,
    variable: RelVar,
    left: RelVar,
    right: RelVar,
) -> Result<Boxed<Formula>, NoMemory>
    ensures meaning { IfOk result (λ r. (m : Reading) → holds r m ≡ is_number m variable (fitting m.ints (m.number left 0 *ℤ m.number right 0))) }
    ensures sorted { IfOk result (λ r. (p : Posed) (kinds : Kinds) → IsTrue (is_variable p kinds AsNumber variable)
        → IsTrue (is_variable p kinds AsNumber left) → IsTrue (is_variable p kinds AsNumber right)
        → IsTrue (is_sorted p kinds r)) }
{
    let left = NumExpr::variable(alloc, left)?;
    let right = NumExpr::variable(alloc, right)?;
    let product = NumExpr::product(alloc, left, right)?;
    let same = is_this_number(alloc, variable, product)?;
    Ok(same)
}

/// A variable says whether two others of a kind are the same.
pub(crate) fn is_sameness(
    alloc: Global,
    variable: RelVar,
    kind: Kind,
    left: RelVar,
    right: RelVar,
) -> Result<Boxed<Formula>, NoMemory>
    ensures meaning { IfOk result (λ r. (m : Reading) → holds r m ≡ same_flag (m.flag variable 0) (same_variables m kind left right)) }
    ensures sorted { IfOk result (λ r. (p : Posed) (kinds : Kinds) → IsTrue (is_variable p kinds AsFlag variable)
        → IsTrue (is_variable p kinds (use_of_kind kind) left) → IsTrue (is_variable p kinds (use_of_kind kind) right)
        → IsTrue (is_sorted p kinds r)) }
{
    let variable = Formula::flag(alloc, variable)?;
    let truth = same_variable(alloc, kind, left, right)?;
    let same = Formula::same(alloc, variable, truth)?;
    Ok(same)
}

/// A variable says whether one number is below another.
pub(crate) fn is_order(
    alloc: Global,
    variable: RelVar,
    left: RelVar,
    right: RelVar,
) -> Result<Boxed<Formula>, NoMemory>
    ensures meaning { IfOk result (λ r. (m : Reading) → holds r m ≡ same_flag (m.flag variable 0) (int_lt (m.number left 0) (m.number right 0))) }
    ensures sorted { IfOk result (λ r. (p : Posed) (kinds : Kinds) → IsTrue (is_variable p kinds AsFlag variable)
        → IsTrue (is_variable p kinds AsNumber left) → IsTrue (is_variable p kinds AsNumber right)
        → IsTrue (is_sorted p kinds r)) }
{
    let variable = Formula::flag(alloc, variable)?;
    let left = NumExpr::variable(alloc, left)?;
    let right = NumExpr::variable(alloc, right)?;
    let truth = Formula::below(alloc, left, right)?;
    let same = Formula::same(alloc, variable, truth)?;
    Ok(same)
}

/// A variable is not null.
pub(crate) fn is_not_null(alloc: Global, variable: RelVar) -> Result<Boxed<Formula>, NoMemory>
    ensures meaning { IfOk result (λ r. (m : Reading) → holds r m ≡ is_through m variable) }
    ensures sorted { IfOk result (λ r. (p : Posed) (kinds : Kinds) → IsTrue (is_variable p kinds AsSet variable) → IsTrue (is_sorted p kinds r)) }
{
    let inner = RelExpr::nil(alloc)?;
    let outer = RelExpr::variable(alloc, variable)?;
    let null = Formula::subset(alloc, inner, outer)?;
    let not_null = Formula::not(alloc, null)?;
    Ok(not_null)
}

/// A variable for numbers is what a field has at the object of another.
fn is_number_of(
    alloc: Global,
    variable: RelVar,
    object: RelVar,
    field: RelVar,
) -> Result<Boxed<Formula>, NoMemory>
    ensures meaning { IfOk result (λ r. (m : Reading) → holds r m ≡ is_cell m kind.Int variable object field) }
    ensures sorted { IfOk result (λ r. (p : Posed) (kinds : Kinds) → IsTrue (is_variable p kinds AsNumber variable)
        → IsTrue (is_variable p kinds AsSet object) → IsTrue (is_spread p kinds AsNumber field)
        → IsTrue (is_sorted p kinds r)) }
{
    let object = RelExpr::variable(alloc, object)?;
    let number = NumExpr::at(alloc, object, field)?;
    let same = is_this_number(alloc, variable, number)?;
    Ok(same)
}

/// A variable for truth values, likewise.
fn is_flag_of(
    alloc: Global,
    variable: RelVar,
    object: RelVar,
    field: RelVar,
) -> Result<Boxed<Formula>, NoMemory>
    ensures meaning { IfOk result (λ r. (m : Reading) → holds r m ≡ is_cell m kind.Flag variable object field) }
    ensures sorted { IfOk result (λ r. (p : Posed) (kinds : Kinds) → IsTrue (is_variable p kinds AsFlag variable)
        → IsTrue (is_variable p kinds AsSet object) → IsTrue (is_spread p kinds AsFlag field)
        → IsTrue (is_sorted p kinds r)) }
{
    let variable = Formula::flag(alloc, variable)?;
    let object = RelExpr::variable(alloc, object)?;
    let truth = Formula::flag_at(alloc, object, field)?;
    let same = Formula::same(alloc, variable, truth)?;
    Ok(same)
}

/// The references of a field at the object of a variable.
fn references_at(alloc: Global, object: RelVar, field: RelVar) -> Result<Boxed<RelExpr>, NoMemory>
    ensures meaning { IfOk result (λ e. (m : Reading) → set_of e m ≡ joined m (m.refs object 0) field) }
    ensures sorted { IfOk result (λ e. (p : Posed) (kinds : Kinds) → IsTrue (is_variable p kinds AsSet object) → IsTrue (is_spread p kinds AsSet field) → IsTrue (is_sorted_set p kinds e)) }
{
    let object = RelExpr::variable(alloc, object)?;
    let references = RelExpr::join(alloc, object, field)?;
    Ok(references)
}

/// A variable for references, likewise.
fn is_reference_of(
    alloc: Global,
    variable: RelVar,
    object: RelVar,
    field: RelVar,
) -> Result<Boxed<Formula>, NoMemory>
    ensures meaning { IfOk result (λ r. (m : Reading) → holds r m ≡ same_sets m (m.refs variable 0) (joined m (m.refs object 0) field)) }
    ensures sorted { IfOk result (λ r. (p : Posed) (kinds : Kinds) → IsTrue (is_variable p kinds AsSet variable)
        → IsTrue (is_variable p kinds AsSet object) → IsTrue (is_spread p kinds AsSet field)
        → IsTrue (is_sorted p kinds r)) }
{
    let inner = RelExpr::variable(alloc, variable)?;
    let outer = references_at(alloc, object, field)?;
    let within = Formula::subset(alloc, inner, outer)?;
    let inner = references_at(alloc, object, field)?;
    let outer = RelExpr::variable(alloc, variable)?;
    let around = Formula::subset(alloc, inner, outer)?;
    let same = Formula::both(alloc, within, around)?;
    Ok(same)
}

/// A variable is what a field of a kind has at the object of another.
pub(crate) fn is_this_cell(
    alloc: Global,
    kind: Kind,
    variable: RelVar,
    object: RelVar,
    field: RelVar,
) -> Result<Boxed<Formula>, NoMemory>
    ensures meaning { IfOk result (λ r. (m : Reading) → holds r m ≡ is_cell m kind variable object field) }
    ensures sorted { IfOk result (λ r. (p : Posed) (kinds : Kinds)
        → IsTrue (is_variable p kinds (use_of_kind kind) variable) → IsTrue (is_variable p kinds AsSet object)
        → IsTrue (is_spread p kinds (use_of_kind kind) field) → IsTrue (is_sorted p kinds r)) }
{
    match kind {
        Kind::Int => {
            let same = is_number_of(alloc, variable, object, field)?;
            Ok(same)
        }
        Kind::Flag => {
            let same = is_flag_of(alloc, variable, object, field)?;
            Ok(same)
        }
        Kind::Ref(_) => {
            let same = is_reference_of(alloc, variable, object, field)?;
            Ok(same)
        }
    }
}
