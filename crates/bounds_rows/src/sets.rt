//! Tests of sets of tuples, and of the set of the tuples that occur in a start.
ghost use Rattle.std.specs.Prelude.{◌≡◌, [], ◌∷◌, IfOk, true};
ghost use Rattle.bounds_rows.specs.Six.{link_to, six_unit};

use crate::tests::one_method;
use heap_core::{Object, Problem, Start, Value};
use no_memory::NoMemory;
use sqlite_items::Items;
use std::alloc::Global;
use std::test::Fail;
use taco_unit::{ClassDef, FieldDef, Kind, Name, Scope, Unit};
use tuple_sets::{all_below, none_of, tuples_of};

#[test]
fn sets_are_made(rt: HostRuntime) -> Result<(), Fail> {
    let nine = all_below(rt.alloc(), 9)?;
    assert_eq!(rt; nine.as_slice(), [511].as_slice());
    let more = all_below(rt.alloc(), 66)?;
    assert_eq!(rt; more.as_slice(), [u64::MAX, 3].as_slice());
    let none = none_of(rt.alloc(), 2)?;
    assert_eq!(rt; none.as_slice(), [0, 0].as_slice());
    Ok(())
}

fn class(alloc: Global, name: &[u8], fields: &[u8], methods: &[u8]) -> Result<ClassDef, NoMemory>
    ensures { IfOk result (λ c. c ≡ record { name = name.now; fields = fields.now; methods = methods.now; invariants = [] }) }
{
    let name = Name::new(alloc, name)?;
    let fields = Items::from_slice(alloc, fields)?;
    let methods = Items::from_slice(alloc, methods)?;
    Ok(ClassDef {
        name,
        fields,
        methods,
        invariants: Items::new(alloc),
    })
}

fn two_classes(alloc: Global) -> Result<Items<ClassDef>, NoMemory>
    ensures { IfOk result (λ l. l ≡ six_unit.classes) }
{
    let mut classes = Items::new(alloc);
    classes.push(class(alloc, b"A", &[0, 1], &[0])?)?;
    classes.push(class(alloc, b"B", &[2, 3, 4], &[])?)?;
    Ok(classes)
}

/// A field of class kind that may be null.
fn link(alloc: Global, name: &[u8], class: u8, to: u8) -> Result<FieldDef, NoMemory>
    ensures { IfOk result (λ f. f ≡ link_to name.now class to) }
{
    let name = Name::new(alloc, name)?;
    Ok(FieldDef {
        name,
        class,
        kind: Kind::Ref(to),
        nullable: true,
    })
}

fn five_fields(alloc: Global) -> Result<Items<FieldDef>, NoMemory>
    ensures { IfOk result (λ l. l ≡ six_unit.fields) }
{
    let mut fields = Items::new(alloc);
    fields.push(link(alloc, b"b", 0, 1)?)?;
    fields.push(link(alloc, b"a", 0, 1)?)?;
    fields.push(link(alloc, b"b", 1, 0)?)?;
    fields.push(link(alloc, b"f", 1, 0)?)?;
    fields.push(link(alloc, b"g", 1, 0)?)?;
    Ok(fields)
}

/// The class A with two fields of kind B and a method that does nothing, and the class B with three
/// fields of kind A, within six objects: 7 tuples of the receiver, 42 of each field.
fn six(alloc: Global) -> Result<Problem, NoMemory> {
    let classes = two_classes(alloc)?;
    let fields = five_fields(alloc)?;
    let methods = one_method(alloc, false)?;
    Ok(Problem {
        unit: Unit {
            classes,
            fields,
            methods,
        },
        method: 0,
        scope: Scope {
            objects: 6,
            ints: 4,
            loops: 3,
            calls: 2,
        },
    })
}

fn object(alloc: Global, class: u8, cells: &[Value]) -> Result<Object, NoMemory> {
    let cells = Items::from_slice(alloc, cells)?;
    Ok(Object { class, cells })
}

/// Six objects; object 0 is the receiver.
fn six_objects(alloc: Global) -> Result<Start, NoMemory> {
    let mut objects = Items::new(alloc);
    objects.push(object(alloc, 0, &[Value::Obj(1), Value::Null])?)?;
    objects.push(object(alloc, 1, &[Value::Null, Value::Obj(2), Value::Obj(3)])?)?;
    objects.push(object(alloc, 0, &[Value::Null, Value::Obj(4)])?)?;
    objects.push(object(alloc, 0, &[Value::Null, Value::Obj(5)])?)?;
    objects.push(object(alloc, 1, &[Value::Obj(3), Value::Null, Value::Null])?)?;
    objects.push(object(alloc, 1, &[Value::Obj(2), Value::Null, Value::Null])?)?;
    Ok(Start {
        objects,
        this: Value::Obj(0),
        args: Items::new(alloc),
    })
}

#[test]
fn a_start_has_its_tuples(rt: HostRuntime) -> Result<(), Fail> {
    let problem = six(rt.alloc())?;
    let start = six_objects(rt.alloc())?;
    assert!(rt; start.fits(&problem));
    let set = tuples_of(rt.alloc(), &start, &problem)?;
    // The receiver is tuple 1; A.b of the objects 0, 2 and 3 is 9, 21, 28, and A.a of them 49, 68, 76;
    // B.b of the objects 1, 4 and 5 is 98, 123, 129, B.f of them 143, 161, 168, B.g 186, 203, 210.
    let expected = [
        (1 << 1) | (1 << 9) | (1 << 21) | (1 << 28) | (1 << 49),
        (1 << 4) | (1 << 12) | (1 << 34) | (1 << 59),
        (1 << 1) | (1 << 15) | (1 << 33) | (1 << 40) | (1 << 58),
        (1u64 << 11) | (1 << 18),
    ];
    assert_eq!(rt; set.as_slice(), expected.as_slice());
    Ok(())
}
