//! The part of a write.

ghost use Rattle.std.specs.Prelude.{◌≡◌, ◌&&◌, IfOk, IsTrue};
ghost use Rattle.heap_core.specs.Posed.{Posed};
ghost use Rattle.rel_core.specs.declared.relation.What.TheVariants as what;
ghost use Rattle.rel_core.specs.Reading.{Reading};
ghost use Rattle.rel_core.specs.Meaning.{holds, is_changed};
ghost use Rattle.rel_core.specs.Uses.{Kinds, AsSet, can_change, is_sorted, is_variable};
ghost use Rattle.dyn_core.specs.declared.prog.Act.TheVariants as acts;
ghost use Rattle.dyn_steps.specs.Meanings.{is_through};
ghost use Rattle.dyn_steps.specs.Points.{field_at};
ghost use Rattle.dyn_steps.specs.Paths.{IsStep, field_set};

use crate::equations::is_not_null;
use crate::part::{Basis, Front, Part};
use crate::point::with_field;
use crate::setting::next_index;
use heap_core::well_posed;
use no_memory::NoMemory;
use rel_core::{Formula, RelExpr, RelVar, What};
use sqlite_items::Boxed;
use std::alloc::Global;

/// The relation of a field at an index.
fn field_relation(field: u8, index: u32) -> RelVar
    ensures { result ≡ field_at field index }
{
    RelVar {
        what: What::Field(field),
        index,
    }
}

/// The part that gives a field the next index.
fn set_field(from: Front, field: u8, formula: Boxed<Formula>) -> Result<Part, NoMemory>
    ensures { IfOk result (λ r. r ≡ field_set from field formula) }
{
    let next = next_index(from.next)?;
    let at = with_field(from.at, field, from.next);
    Ok(Part {
        formula,
        end: Front { at, next },
    })
}

/// A relation is another, but that at the object of a variable it has what a third has at place 0.
pub(crate) fn is_written(
    alloc: Global,
    new: RelVar,
    object: RelVar,
    given: RelVar,
    old: RelVar,
) -> Result<Boxed<Formula>, NoMemory>
    ensures meaning { IfOk result (λ r. (m : Reading) → holds r m ≡ is_changed m new (m.refs object 0) given old) }
    ensures sorted { IfOk result (λ r. (p : Posed) (kinds : Kinds) → IsTrue (is_variable p kinds AsSet object) → IsTrue (can_change p kinds new given old) → IsTrue (is_sorted p kinds r)) }
{
    let object = RelExpr::variable(alloc, object)?;
    let changed = Formula::changed(alloc, new, object, given, old)?;
    Ok(changed)
}

/// A field of the object in a variable, which is not null, is set to another variable.
pub fn write(
    alloc: Global,
    basis: Basis<'_>,
    from: Front,
    object: u16,
    field: u8,
    value: u16,
) -> Result<Part, NoMemory>
    ensures { IfOk result (IsStep basis.entry.problem.now basis.entry.kinds.now (acts.Write object field value) from) }
{
    well_posed(basis.problem);
    let new = field_relation(field, from.next);
    let through = from.at.slot(object);
    let given = from.at.slot(value);
    let old = from.at.field(field);
    let there = is_not_null(alloc, through)?;
    let changed = is_written(alloc, new, through, given, old)?;
    let formula = Formula::both(alloc, there, changed)?;
    let part = set_field(from, field, formula)?;
    Ok(part)
}
