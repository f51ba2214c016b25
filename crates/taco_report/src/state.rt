ghost use Rattle.std.specs.Prelude.{◌≡◌, ◌++◌, flat_map, zip, string_bytes, IfOk, OnOk};
ghost use Rattle.std.specs.List.{enumerate_from};
ghost use Rattle.taco_report.specs.Texts.{argument_line, cell_text, field_text, fields_of_class, heap_text, object_line, objects_line, params_of, state_text as state_text_of, this_line};

use crate::parts::add_class;
use crate::writing::{add, add_number, add_object, add_value};
use heap_core::{Object, Problem, Start, Value, method_in};
use no_memory::NoMemory;
use std::alloc::Global;
use taco_unit::ParamDef;

/// Adds the line of the receiver.
fn add_this(alloc: Global, out: &mut Vec<u8>, this: Value) -> Result<(), NoMemory>
    ensures { OnOk result (out.new.items ≡ out.old.items ++ this_line this) }
{
    add(out, b"this ")?;
    match this {
        Value::Obj(o) => add_object(alloc, out, o)?,
        _ => add(out, b"none")?,
    }
    add(out, b"\n")
}

/// Adds the line of an argument.
fn add_argument(
    alloc: Global,
    out: &mut Vec<u8>,
    param: &ParamDef,
    value: Value,
) -> Result<(), NoMemory>
    ensures { OnOk result (out.new.items ≡ out.old.items ++ argument_line (param.now, value)) }
{
    add(out, param.name.bytes())?;
    add(out, b"=")?;
    add_value(alloc, out, value)?;
    add(out, b"\n")
}

/// Adds the lines of the arguments.
fn add_arguments(
    alloc: Global,
    out: &mut Vec<u8>,
    params: &[ParamDef],
    values: &[Value],
) -> Result<(), NoMemory>
    ensures { OnOk result (out.new.items ≡ out.old.items ++ flat_map argument_line (zip params.now values.now)) }
{
    let count = params.len().min(values.len());
    for i in 0..count {
        add_argument(alloc, out, &params[i], values[i])?;
    }
    Ok(())
}

/// The parameters of the method that is judged.
pub(crate) fn params_in(problem: &Problem) -> &[ParamDef]
    ensures { result.now ≡ params_of problem.now }
{
    method_in(problem).params.as_slice()
}

/// The name of the field of this number.
pub(crate) fn field_name(problem: &Problem, field: u8) -> &[u8]
    ensures { result.now ≡ field_text problem.now field }
{
    match problem.unit.fields.as_slice().get(field as usize) {
        Some(def) => def.name.bytes(),
        None => &[],
    }
}

/// Adds one field of an object with its value, behind a space.
fn add_cell(
    alloc: Global,
    out: &mut Vec<u8>,
    problem: &Problem,
    field: u8,
    value: Value,
) -> Result<(), NoMemory>
    ensures { OnOk result (out.new.items ≡ out.old.items ++ cell_text problem.now (field, value)) }
{
    add(out, b" ")?;
    add(out, field_name(problem, field))?;
    add(out, b"=")?;
    add_value(alloc, out, value)
}

/// Adds fields of an object with their values.
fn add_cells(
    alloc: Global,
    out: &mut Vec<u8>,
    problem: &Problem,
    fields: &[u8],
    cells: &[Value],
) -> Result<(), NoMemory>
    ensures { OnOk result (out.new.items ≡ out.old.items ++ flat_map (cell_text problem.now) (zip fields.now cells.now)) }
{
    let count = fields.len().min(cells.len());
    for i in 0..count {
        add_cell(alloc, out, problem, fields[i], cells[i])?;
    }
    Ok(())
}

/// The fields of the class of this number.
pub(crate) fn fields_in(problem: &Problem, class: u8) -> &[u8]
    ensures { result.now ≡ fields_of_class problem.now class }
{
    match problem.unit.classes.as_slice().get(class as usize) {
        Some(def) => def.fields.as_slice(),
        None => &[],
    }
}

/// Adds the line of an object of this number.
fn add_object_line(
    alloc: Global,
    out: &mut Vec<u8>,
    problem: &Problem,
    number: u64,
    object: &Object,
) -> Result<(), NoMemory>
    ensures { OnOk result (out.new.items ≡ out.old.items ++ object_line problem.now (number, object.now)) }
{
    add(out, b"@")?;
    add_number(alloc, out, number)?;
    add(out, b" ")?;
    add_class(out, problem, object.class)?;
    let fields = fields_in(problem, object.class);
    add_cells(alloc, out, problem, fields, object.cells.as_slice())?;
    add(out, b"\n")
}

/// The line of a number of objects.
fn objects_text(alloc: Global, count: u64) -> Result<String, NoMemory>
    ensures { IfOk result (λ text. string_bytes text ≡ objects_line count) }
{
    let text = format!(in alloc; "objects {count}\n")?;
    Ok(text)
}

/// Adds the lines of objects, of which the first has the number 0.
fn add_objects(
    alloc: Global,
    out: &mut Vec<u8>,
    problem: &Problem,
    objects: &[Object],
) -> Result<(), NoMemory>
    ensures { OnOk result (out.new.items ≡ out.old.items ++ flat_map (object_line problem.now) (enumerate_from 0 objects.now)) }
{
    for i in 0..objects.len() {
        add_object_line(alloc, out, problem, i as u64, &objects[i])?;
    }
    Ok(())
}

/// Adds the lines of a heap.
pub(crate) fn add_heap(
    alloc: Global,
    out: &mut Vec<u8>,
    problem: &Problem,
    heap: &[Object],
) -> Result<(), NoMemory>
    ensures { OnOk result (out.new.items ≡ out.old.items ++ heap_text problem.now heap.now) }
{
    let count = objects_text(alloc, heap.len() as u64)?;
    add(out, count.as_bytes())?;
    add_objects(alloc, out, problem, heap)
}

/// Adds the text of a start.
pub(crate) fn add_state(
    alloc: Global,
    out: &mut Vec<u8>,
    problem: &Problem,
    start: &Start,
) -> Result<(), NoMemory>
    ensures { OnOk result (out.new.items ≡ out.old.items ++ state_text_of problem.now start.now) }
{
    add_heap(alloc, out, problem, start.objects.as_slice())?;
    add_this(alloc, out, start.this)?;
    add_arguments(alloc, out, params_in(problem), start.args.as_slice())
}

/// The text of a start: the number of its objects, a line for each, the receiver, and a line for
/// each argument. Its cost is the text's length.
pub fn state_text(alloc: Global, problem: &Problem, start: &Start) -> Result<Vec<u8>, NoMemory>
    ensures { IfOk result (λ text. text.items ≡ state_text_of problem.now start.now) }
{
    let mut out = Vec::new(alloc);
    add_state(alloc, &mut out, problem, start)?;
    Ok(out)
}
