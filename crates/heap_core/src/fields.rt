ghost use Rattle.std.specs.Prelude.{◌≡◌, ◌≤◌, Some, None, false, IfOk, IfErr, IfSome, IfNone, option_map, length, map, nat_lt, slice_get, slice_set, option_and_then, if◌then◌else◌};
ghost use Rattle.heap_core.specs.Heap.{field as field_lem, cell, put, first_value as first_value_lem, grown};

use crate::numbers::zero_of;
use crate::problem::Problem;
use crate::value::{Object, Seen, Value, place_of};
use no_memory::NoMemory;
use sqlite_items::{Items, at};
use std::alloc::Global;
use taco_unit::{FieldDef, Unit};

/// The value of a field of the object of this number, where the heap has the object and its class
/// declares the field. Linear in the class's fields. Takes no memory.
pub fn read(unit: &Unit, heap: &[Object], field: u8, object: u8) -> Option<Value>
    ensures { result ≡ option_and_then (cell unit.now.classes field) (slice_get heap.now object) }
{
    match at(heap, usize::from(object)) {
        Some(x) => x.cell(unit, field),
        None => None,
    }
}

/// `value.field` in a clause: `Bad` where the value is null or an object that the heap lacks. `Out`
/// where it is no object, and where the object's class does not declare the field. Linear in the
/// class's fields. Takes no memory.
pub fn field(unit: &Unit, heap: &[Object], field: u8, value: Value) -> Seen
    ensures { result ≡ field_lem unit.now.classes heap.now field value }
{
    match value {
        Value::Null => Seen::Bad,
        Value::Obj(object) => match at(heap, usize::from(object)) {
            Some(x) => match x.cell(unit, field) {
                Some(held) => Seen::Is(held),
                None => Seen::Out,
            },
            None => Seen::Bad,
        },
        _ => Seen::Out,
    }
}

/// Sets the cell of this place, and says whether the object has it.
fn set_cell(object: &mut Object, place: usize, value: Value) -> bool
    ensures object { object.new ≡ record object.old { cells = slice_set object.old.cells place value } }
    ensures there { result ≡ nat_lt place (length object.old.cells) }
    ensures stays { result ≡ false → object.new ≡ object.old }
{
    let there = place < object.cells.len();
    if there {
        object.cells.set(place, value);
    }
    there
}

/// Sets a field of the object of this number in place, and says whether the heap has the object and
/// the object the field; where they have not, the heap stays as it was. It keeps its number of
/// objects. Linear in the class's fields. Takes no memory.
pub fn write(unit: &Unit, heap: &mut Vec<Object>, field: u8, object: u8, value: Value) -> bool
    ensures heap { put unit.now.classes heap.old.items field object value ≡ (if result then Some heap.new.items else None) }
    ensures objects { length heap.new.items ≡ length heap.old.items }
    ensures stays { result ≡ false → heap.new.items ≡ heap.old.items }
{
    let object = usize::from(object);
    if object < heap.len() {
        let held = &mut heap[object];
        match place_of(unit.classes.as_slice(), held.class, field) {
            Some(place) => set_cell(held, place, value),
            None => false,
        }
    } else {
        false
    }
}

/// The value with which a field of this number begins.
fn first_value(fields: &[FieldDef], field: u8) -> Value
    ensures { result ≡ first_value_lem fields.now field }
{
    match at(fields, usize::from(field)) {
        Some(d) => zero_of(d.kind),
        None => Value::Null,
    }
}

/// The values with which these fields begin.
fn first_values(alloc: Global, fields: &[FieldDef], listed: &[u8]) -> Result<Items<Value>, NoMemory>
    ensures { IfOk result (λ cells. cells ≡ map (first_value_lem fields.now) listed.now) }
{
    let mut cells = Items::new(alloc);
    for field in listed {
        cells.push(first_value(fields, *field))?;
    }
    Ok(cells)
}

/// Adds a new object of the class, and answers its number. `None` where the unit lacks the class or
/// the heap has no room for it: it never has more objects than the scope. Without a number the heap
/// stays as it was. Linear in the class's fields.
pub fn grow(
    alloc: Global,
    problem: &Problem,
    heap: &mut Vec<Object>,
    class: u8,
) -> Result<Option<u8>, NoMemory>
    ensures heap { IfOk result (λ number. grown problem.now heap.old.items class ≡ option_map (λ o. heap.new.items) number) }
    ensures number { IfOk result (λ number. IfSome number (λ o. o ≡ length heap.old.items)) }
    ensures room { length heap.old.items ≤ problem.now.scope.objects → length heap.new.items ≤ problem.now.scope.objects }
    ensures full { IfOk result (λ number. IfNone number (heap.new.items ≡ heap.old.items)) }
    ensures no_memory { IfErr result (λ e. heap.new.items ≡ heap.old.items) }
{
    if heap.len() >= usize::from(problem.scope.objects) {
        return Ok(None);
    }
    match at(problem.unit.classes.as_slice(), usize::from(class)) {
        Some(d) => {
            let cells = first_values(alloc, problem.unit.fields.as_slice(), d.fields.as_slice())?;
            let number = heap.len() as u8;
            heap.push(Object { class, cells })?;
            Ok(Some(number))
        }
        None => Ok(None),
    }
}
