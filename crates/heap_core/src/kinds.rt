ghost use Rattle.std.specs.Prelude.{◌≡◌, ◌≤◌};
ghost use Rattle.std.specs.List.{list_all};
ghost use Rattle.std.specs.Cmp.Lexicographic.{pointwise};
ghost use Rattle.heap_core.specs.Heap.{is_of as is_of_lem};
ghost use Rattle.heap_core.specs.Start.{has_kind as has_kind_lem, has_field_kind as has_field_kind_lem, is_whole as is_whole_lem, is_argument, is_receiver as is_receiver_lem};

use crate::numbers::in_bits;
use crate::value::{Object, Value};
use taco_unit::{FieldDef, Kind, ParamDef, Unit};

/// Whether the heap has the object, of this class.
pub fn is_of(heap: &[Object], class: u8, object: u8) -> bool
    ensures { result ≡ is_of_lem heap.now class object }
{
    match heap.get(usize::from(object)) {
        Some(x) => x.class == class,
        None => false,
    }
}

/// Whether the value is one of the kind.
fn has_kind(ints: u8, heap: &[Object], kind: Kind, value: Value) -> bool
    requires low { 2 ≤ ints }
    requires high { ints ≤ 16 }
    ensures { result ≡ has_kind_lem ints heap.now kind value }
{
    match (kind, value) {
        (Kind::Int, Value::Num(number)) => in_bits(ints, i64::from(number)),
        (Kind::Flag, Value::Flag(_)) => true,
        (Kind::Ref(_), Value::Null) => true,
        (Kind::Ref(class), Value::Obj(object)) => is_of(heap, class, object),
        _ => false,
    }
}

/// Whether the value is one of the kind of the field of this number.
fn has_field_kind(fields: &[FieldDef], ints: u8, heap: &[Object], field: u8, value: Value) -> bool
    requires low { 2 ≤ ints }
    requires high { ints ≤ 16 }
    ensures { result ≡ has_field_kind_lem fields.now ints heap.now field value }
{
    match fields.get(usize::from(field)) {
        Some(d) => has_kind(ints, heap, d.kind, value),
        None => false,
    }
}

/// Whether each field has one value, of its kind.
fn are_cells(fields: &[FieldDef], ints: u8, heap: &[Object], listed: &[u8], cells: &[Value]) -> bool
    requires low { 2 ≤ ints }
    requires high { ints ≤ 16 }
    ensures { result ≡ pointwise (has_field_kind_lem fields.now ints heap.now) listed.now cells.now }
{
    match (listed, cells) {
        ([], []) => true,
        ([field, listed @ ..], [value, cells @ ..]) => {
            has_field_kind(fields, ints, heap, *field, *value)
                && are_cells(fields, ints, heap, listed, cells)
        }
        _ => false,
    }
}

/// Whether the object is of a class of the unit and has one value of its kind for each of its fields.
fn is_whole(unit: &Unit, ints: u8, heap: &[Object], object: &Object) -> bool
    requires low { 2 ≤ ints }
    requires high { ints ≤ 16 }
    ensures { result ≡ is_whole_lem unit.now ints heap.now object.now }
{
    match unit.classes.as_slice().get(usize::from(object.class)) {
        Some(d) => are_cells(
            unit.fields.as_slice(),
            ints,
            heap,
            d.fields.as_slice(),
            object.cells.as_slice(),
        ),
        None => false,
    }
}

/// Whether all objects of the heap are whole.
pub fn are_whole(unit: &Unit, ints: u8, heap: &[Object]) -> bool
    requires low { 2 ≤ ints }
    requires high { ints ≤ 16 }
    ensures { result ≡ list_all (is_whole_lem unit.now ints heap.now) heap.now }
{
    heap.iter().all(|object| is_whole(unit, ints, heap, object))
}

/// Whether there is one argument for each parameter, of its kind.
pub fn are_arguments(ints: u8, heap: &[Object], params: &[ParamDef], args: &[Value]) -> bool
    requires low { 2 ≤ ints }
    requires high { ints ≤ 16 }
    ensures { result ≡ pointwise (is_argument ints heap.now) params.now args.now }
{
    match (params, args) {
        ([], []) => true,
        ([param, params @ ..], [value, args @ ..]) => {
            has_kind(ints, heap, param.kind, *value) && are_arguments(ints, heap, params, args)
        }
        _ => false,
    }
}

/// Whether the value can be the receiver of a method of this class, static where `fixed` says so.
pub fn is_receiver(heap: &[Object], class: u8, fixed: bool, value: Value) -> bool
    ensures { result ≡ is_receiver_lem heap.now class fixed value }
{
    match value {
        Value::Null => fixed,
        Value::Obj(object) => !fixed && is_of(heap, class, object),
        _ => false,
    }
}
