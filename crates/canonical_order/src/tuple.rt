ghost use Rattle.std.specs.Prelude.{◌≡◌, ℕ, ◌+◌, ◌*◌, ◌≤◌, ◌<◌, length, slice_get, Some, IfSome, false};
ghost use Rattle.canonical_order.specs.Tuples.{targets, tuples, roots_of, links_of, tuples_of_roots, tuples_of_links, occurs as occurs_lem};
ghost use Rattle.heap_core.specs.Outcomes.{is_value as is_value_lem, gives};
ghost use Rattle.heap_core.specs.Heap.{field as field_lem};
ghost use Rattle.heap_core.specs.declared.value.Value.TheVariants.{Obj};
ghost use Rattle.std.specs.Option.{option_map_or};

use crate::roots::{link_at, link_count, root_at, root_count};
use heap_core::{Object, Problem, Start, Value, method_in};
use taco_unit::{MethodDef, Unit};

/// That a root, or a class-kind field of an object, has a value: null or an object.
#[derive(Clone, Copy, Debug, PartialEq, Eq)]
pub enum Tuple {
    /// Root 0 is the receiver, root i is parameter i counted from 1.
    Root(u8, Value),
    /// The field of this number in the unit, and the object.
    Field(u8, u8, Value),
}

/// The value of this number: null, then the objects.
fn target(number: u8) -> Value
    ensures { (objects : ℕ) → number ≤ objects → slice_get (targets objects) number ≡ Some result }
{
    if number == 0 {
        Value::Null
    } else {
        Value::Obj(number - 1)
    }
}

/// So many roots, and class-kind fields at so many objects, with so many objects and null.
fn product_of(roots: usize, links: usize, objects: usize) -> u32
    requires few_roots { roots ≤ 9 }
    requires few_links { links ≤ 32 }
    requires few_objects { objects ≤ 12 }
    ensures value { result ≡ (roots + links * objects) * (objects + 1) }
    ensures few { result ≤ 5109 }
{
    let cells = links * objects;
    let rows = roots + cells;
    (rows * (objects + 1)) as u32
}

/// The tuple at this place among those of the roots.
fn root_tuple(method: &MethodDef, objects: u8, at: usize) -> Tuple
    requires few { length method.now.params ≤ 8 }
    requires small { objects ≤ 12 }
    requires within { at < length (roots_of method.now) * (objects + 1) }
    ensures { slice_get (tuples_of_roots objects (roots_of method.now)) at ≡ Some result }
{
    let width = usize::from(objects) + 1;
    let value = target((at % width) as u8);
    match root_at(method, at / width) {
        Some(root) => Tuple::Root(root as u8, value),
        None => unreachable!(),
    }
}

/// The tuple at this place among those of the fields.
fn field_tuple(unit: &Unit, objects: u8, at: usize) -> Tuple
    requires some { 1 ≤ objects }
    requires small { objects ≤ 12 }
    requires within { at < length (links_of unit.now) * (objects * (objects + 1)) }
    ensures { slice_get (tuples_of_links objects (links_of unit.now)) at ≡ Some result }
{
    let width = usize::from(objects) + 1;
    let each = usize::from(objects) * width;
    let rest = at % each;
    let value = target((rest % width) as u8);
    match link_at(unit, at / each) {
        Some(field) => Tuple::Field(field as u8, (rest / width) as u8, value),
        None => unreachable!(),
    }
}

/// How many tuples the problem has, at most 5,109. Linear in the parameters of the method and the
/// fields of the unit. Takes no memory.
pub fn tuple_count(problem: &Problem) -> u32
    ensures value { result ≡ length (tuples problem.now) }
    ensures few { result ≤ 5109 }
{
    let roots = root_count(method_in(problem));
    let links = link_count(&problem.unit);
    product_of(roots, links, usize::from(problem.scope.objects))
}

/// The tuple of this number in the tuple order: first the roots, then the fields of class kind, each
/// with null and then the objects. Linear in the parameters of the method and the fields of the
/// unit. Takes no memory.
pub fn tuple_at(problem: &Problem, tuple: u32) -> Tuple
    requires { tuple < length (tuples problem.now) }
    ensures { slice_get (tuples problem.now) tuple ≡ Some result }
{
    let method = method_in(problem);
    let objects = problem.scope.objects;
    let at = tuple as usize;
    let roots = root_count(method) * (usize::from(objects) + 1);
    if at < roots {
        root_tuple(method, objects, at)
    } else {
        field_tuple(&problem.unit, objects, at - roots)
    }
}

/// Whether two values are one.
fn is_value(a: Value, b: Value) -> bool
    ensures { result ≡ is_value_lem a b }
{
    match (a, b) {
        (Value::Null, Value::Null) => true,
        (Value::Obj(a), Value::Obj(b)) => a == b,
        (Value::Num(a), Value::Num(b)) => a == b,
        (Value::Flag(a), Value::Flag(b)) => a == b,
        _ => false,
    }
}

/// Whether the argument of this number, counted from 0, is the value.
fn is_argument(args: &[Value], place: usize, value: Value) -> bool
    ensures { result ≡ option_map_or (λ u. is_value_lem u value) (slice_get args.now place) false }
{
    match args.get(place) {
        Some(arg) => is_value(*arg, value),
        None => false,
    }
}

/// Whether the field of the object is the value.
fn is_cell(unit: &Unit, heap: &[Object], field: u8, object: u8, value: Value) -> bool
    ensures { result ≡ gives value (field_lem unit.now.classes heap.now field (Obj object)) }
{
    match heap.get(usize::from(object)) {
        Some(x) => match x.cell(unit, field) {
            Some(cell) => is_value(cell, value),
            None => false,
        },
        None => false,
    }
}

/// Whether that root, or that field of that object, whose class declares it, has that value.
fn holds(problem: &Problem, start: &Start, tuple: Tuple) -> bool
    ensures { result ≡ occurs_lem problem.now start.now tuple }
{
    match tuple {
        Tuple::Root(0, value) => is_value(start.this, value),
        Tuple::Root(root, value) => {
            is_argument(start.args.as_slice(), usize::from(root) - 1, value)
        }
        Tuple::Field(field, object, value) => is_cell(
            &problem.unit,
            start.objects.as_slice(),
            field,
            object,
            value,
        ),
    }
}

/// Whether the tuple of this number occurs in the start. Linear in the parameters of the method and
/// the fields of the unit. Takes no memory.
pub fn occurs(start: &Start, problem: &Problem, tuple: u32) -> bool
    requires { tuple < length (tuples problem.now) }
    ensures { IfSome (slice_get (tuples problem.now) tuple) (λ t. result ≡ occurs_lem problem.now start.now t) }
{
    holds(problem, start, tuple_at(problem, tuple))
}
