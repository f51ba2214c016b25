ghost use Rattle.std.specs.Prelude.{◌≡◌, ◌++◌, OnOk};
ghost use Rattle.taco_report.specs.Texts.{class_text};
ghost use Rattle.taco_report.specs.Reports.{broken_line, part_text, place_text};

use crate::writing::{add, add_number, add_object};
use heap_core::{Part, Problem};
use no_memory::NoMemory;
use std::alloc::Global;

/// Adds the name of the class of this number.
pub(crate) fn add_class(out: &mut Vec<u8>, problem: &Problem, class: u8) -> Result<(), NoMemory>
    ensures { OnOk result (out.new.items ≡ out.old.items ++ class_text problem.now class) }
{
    match problem.unit.classes.as_slice().get(class as usize) {
        Some(def) => add(out, def.name.bytes()),
        None => Ok(()),
    }
}

/// Adds the names of the field of this number and of the class that declares it.
fn add_field(out: &mut Vec<u8>, problem: &Problem, field: u8) -> Result<(), NoMemory>
    ensures { OnOk result (out.new.items ≡ out.old.items ++ place_text problem.now field) }
{
    match problem.unit.fields.as_slice().get(field as usize) {
        Some(def) => {
            add_class(out, problem, def.class)?;
            add(out, b".")?;
            add(out, def.name.bytes())
        }
        None => Ok(()),
    }
}

/// Adds a part of a contract.
pub(crate) fn add_part(
    alloc: Global,
    out: &mut Vec<u8>,
    problem: &Problem,
    part: Part,
) -> Result<(), NoMemory>
    ensures { OnOk result (out.new.items ≡ out.old.items ++ part_text problem.now part) }
{
    match part {
        Part::Thrown => add(out, b"thrown"),
        Part::Ensures(k) => {
            add(out, b"ensures ")?;
            add_number(alloc, out, u64::from(k))
        }
        Part::Result => add(out, b"result"),
        Part::NonNull(o, field) => {
            add(out, b"nonnull ")?;
            add_object(alloc, out, o)?;
            add(out, b" ")?;
            add_field(out, problem, field)
        }
        Part::Invariant(k, o) => {
            add(out, b"invariant ")?;
            add_number(alloc, out, u64::from(k))?;
            add(out, b" ")?;
            add_object(alloc, out, o)
        }
    }
}

/// Adds the line of the broken part.
pub(crate) fn add_broken(
    alloc: Global,
    out: &mut Vec<u8>,
    problem: &Problem,
    part: Part,
) -> Result<(), NoMemory>
    ensures { OnOk result (out.new.items ≡ out.old.items ++ broken_line problem.now part) }
{
    add(out, b"broken ")?;
    add_part(alloc, out, problem, part)?;
    add(out, b"\n")
}
