ghost use Rattle.std.specs.Prelude.{◌≡◌, ◌++◌, ◌≤◌, ℕ, List, [], nat_lt, option_map, slice_get, Some, flat_map, zip, IsTrue, IfOk, IfSome, IfNone, MatchOption};
ghost use Rattle.std.specs.Cmp.Lexicographic.{pointwise};
ghost use Rattle.heap_core.specs.declared.value.Value.{Value};
ghost use Rattle.taco_report.specs.Texts.{argument_line as argument_line_of, cell_text, object_line as object_line_of, objects_line, this_line, this_value};
ghost use Rattle.taco_report.specs.States.{NoLine, ends, is_cell, is_given, is_listed, is_named, is_receiver_named};

use crate::state::{field_name, fields_in};
use crate::value_reader::{behind, number_below, object_of, value, word_of};
use heap_core::{Object, Problem, Value, method_in, well_posed};
use no_memory::NoMemory;
use sqlite_items::Items;
use std::alloc::Global;
use taco_unit::{Kind, ParamDef};

/// The number of objects on the first line, and what stands behind the line.
pub(crate) fn count_line(alloc: Global, text: &[u8]) -> Result<Option<(u8, &[u8])>, NoMemory>
    ensures found { IfOk result (λ r. IfSome r (λ x. (x.0 ≤ 12) × (text.now ≡ objects_line x.0 ++ x.1.now))) }
    ensures none { IfOk result (λ r. IfNone r (NoLine (λ n. nat_lt n 13) objects_line text.now)) }
{
    let Some(number) = behind(text, b"objects ") else {
        return Ok(None);
    };
    let (word, end) = word_of(number);
    let Some(count) = number_below(alloc, 13, word)? else {
        return Ok(None);
    };
    match behind(end, b"\n") {
        Some(rest) => Ok(Some((count, rest))),
        None => Ok(None),
    }
}

/// The kind of the field of this number.
fn field_kind(problem: &Problem, field: u8) -> Option<Kind>
    ensures { result ≡ option_map (λ d. d.kind) (slice_get problem.now.unit.fields field) }
{
    match problem.unit.fields.as_slice().get(field as usize) {
        Some(def) => Some(def.kind),
        None => None,
    }
}

/// The value of a field of an object that stands first, behind a space and the field's name, and
/// what stands behind it.
fn cell<'a>(
    alloc: Global,
    problem: &Problem,
    count: u8,
    field: u8,
    text: &'a [u8],
) -> Result<Option<(Value, &'a [u8])>, NoMemory>
    ensures found { IfOk result (λ r. IfSome r (λ x. IsTrue (is_cell problem.now.unit count field x.0) × (text.now ≡ cell_text problem.now (field, x.0) ++ x.1.now) × IsTrue (ends x.1.now))) }
    ensures none { IfOk result (λ r. IfNone r ((v : Value) (more : List ℕ) → IsTrue (is_cell problem.now.unit count field v) → IsTrue (ends more) → text.now ≡ cell_text problem.now (field, v) ++ more → ⊥)) }
{
    let Some(kind) = field_kind(problem, field) else {
        return Ok(None);
    };
    let Some(name) = behind(text, b" ") else {
        return Ok(None);
    };
    let Some(sign) = behind(name, field_name(problem, field)) else {
        return Ok(None);
    };
    match behind(sign, b"=") {
        Some(text) => value(alloc, kind, count, text),
        None => Ok(None),
    }
}

/// The values of these fields of an object, one behind the other, which are added to `cells`, and
/// what stands behind them.
fn add_read_cells<'a>(
    alloc: Global,
    problem: &Problem,
    count: u8,
    fields: &[u8],
    cells: &mut Items<Value>,
    text: &'a [u8],
) -> Result<Option<&'a [u8]>, NoMemory>
    requires { IsTrue (ends text.now) }
    ensures found { IfOk result (λ r. IfSome r (λ rest. (vs : List Value) × (cells.new ≡ cells.old ++ vs) × IsTrue (pointwise (is_cell problem.now.unit count) fields.now vs) × (text.now ≡ flat_map (cell_text problem.now) (zip fields.now vs) ++ rest.now) × IsTrue (ends rest.now))) }
    ensures none { IfOk result (λ r. IfNone r ((vs : List Value) (more : List ℕ) → IsTrue (pointwise (is_cell problem.now.unit count) fields.now vs) → IsTrue (ends more) → text.now ≡ flat_map (cell_text problem.now) (zip fields.now vs) ++ more → ⊥)) }
{
    let Some((field, others)) = fields.split_first() else {
        return Ok(Some(text));
    };
    match cell(alloc, problem, count, *field, text)? {
        Some((value, rest)) => {
            cells.push(value)?;
            add_read_cells(alloc, problem, count, others, cells, rest)
        }
        None => Ok(None),
    }
}

/// An object on its line, which begins with its number, and what stands behind the line.
pub(crate) fn object_line<'a>(
    alloc: Global,
    problem: &Problem,
    count: u8,
    number: usize,
    text: &'a [u8],
) -> Result<Option<(Object, &'a [u8])>, NoMemory>
    ensures found { IfOk result (λ r. IfSome r (λ x. IsTrue (is_listed problem.now.unit count x.0) × (text.now ≡ object_line_of problem.now (number, x.0) ++ x.1.now))) }
    ensures none { IfOk result (λ r. IfNone r (NoLine (is_listed problem.now.unit count) (λ x. object_line_of problem.now (number, x)) text.now)) }
{
    well_posed(problem);
    let head = format!(in alloc; "@{number} ")?;
    let Some(name) = behind(text, head.as_bytes()) else {
        return Ok(None);
    };
    let (word, fields) = word_of(name);
    let Some(class) = problem.unit.class_named(word) else {
        return Ok(None);
    };
    let mut cells = Items::new(alloc);
    let listed = fields_in(problem, class);
    let Some(end) = add_read_cells(alloc, problem, count, listed, &mut cells, fields)? else {
        return Ok(None);
    };
    match behind(end, b"\n") {
        Some(rest) => Ok(Some((Object { class, cells }, rest))),
        None => Ok(None),
    }
}

/// The receiver that is written so: an object below `count`, or none of a static method.
fn receiver_of(
    alloc: Global,
    is_static: bool,
    count: u8,
    word: &[u8],
) -> Result<Option<Value>, NoMemory>
    ensures { IfOk result (λ r. MatchOption r ((v : Value) → IsTrue (is_named count is_static v) → word.now ≡ this_value v → ⊥) (λ v. IsTrue (is_named count is_static v) × (word.now ≡ this_value v))) }
{
    if is_static {
        if word == b"none".as_slice() {
            return Ok(Some(Value::Null));
        }
        return Ok(None);
    }
    match object_of(alloc, count, word)? {
        Some(object) => Ok(Some(Value::Obj(object))),
        None => Ok(None),
    }
}

/// The receiver on its line, and what stands behind the line.
pub(crate) fn receiver_line<'a>(
    alloc: Global,
    problem: &Problem,
    count: u8,
    text: &'a [u8],
) -> Result<Option<(Value, &'a [u8])>, NoMemory>
    ensures found { IfOk result (λ r. IfSome r (λ x. IsTrue (is_receiver_named problem.now count x.0) × (text.now ≡ this_line x.0 ++ x.1.now))) }
    ensures none { IfOk result (λ r. IfNone r (NoLine (is_receiver_named problem.now count) this_line text.now)) }
{
    let Some(receiver) = behind(text, b"this ") else {
        return Ok(None);
    };
    let (word, end) = word_of(receiver);
    let Some(this) = receiver_of(alloc, method_in(problem).fixed, count, word)? else {
        return Ok(None);
    };
    match behind(end, b"\n") {
        Some(rest) => Ok(Some((this, rest))),
        None => Ok(None),
    }
}

/// An argument on its line, and what stands behind the line.
pub(crate) fn argument_line<'a>(
    alloc: Global,
    count: u8,
    param: &ParamDef,
    text: &'a [u8],
) -> Result<Option<(Value, &'a [u8])>, NoMemory>
    ensures found { IfOk result (λ r. IfSome r (λ x. IsTrue (is_given count param.now x.0) × (text.now ≡ argument_line_of (param.now, x.0) ++ x.1.now))) }
    ensures none { IfOk result (λ r. IfNone r (NoLine (is_given count param.now) (λ v. argument_line_of (param.now, v)) text.now)) }
{
    let Some(sign) = behind(text, param.name.bytes()) else {
        return Ok(None);
    };
    let Some(written) = behind(sign, b"=") else {
        return Ok(None);
    };
    let Some((argument, end)) = value(alloc, param.kind, count, written)? else {
        return Ok(None);
    };
    match behind(end, b"\n") {
        Some(rest) => Ok(Some((argument, rest))),
        None => Ok(None),
    }
}
