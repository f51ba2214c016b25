ghost use Rattle.std.specs.Prelude.{◌≡◌, ◌≤◌, length, map, IfOk};
ghost use Rattle.taco_unit.specs.declared.unit.FieldDef.{FieldDef as Field};
ghost use Rattle.taco_unit.specs.declared.unit.MethodDef.{MethodDef as Method};
ghost use Rattle.taco_unit.specs.Well.{IsWell};
ghost use Rattle.typed_core.specs.Members.{class_def as class_def_lem, class_defs as class_defs_lem, numbers_of, unit_of};

use crate::members::{Built, ClassPart};
use no_memory::NoMemory;
use sqlite_items::Items;
use std::alloc::Global;
use taco_unit::{ClassDef, FieldDef, MethodDef, Unit};

/// The numbers of the fields of a class.
fn field_numbers(alloc: Global, fields: &[FieldDef], owner: u8) -> Result<Items<u8>, NoMemory>
    requires { length fields.now ≤ 255 }
    ensures { IfOk result (λ numbers. numbers ≡ numbers_of owner 0 (map (λ (d : Field). d.class) fields.now)) }
{
    let mut numbers = Items::new(alloc);
    let mut number: usize = 0;
    for field in fields {
        if field.class == owner {
            numbers.push(number as u8)?;
        }
        number += 1;
    }
    Ok(numbers)
}

/// The numbers of the methods of a class.
fn method_numbers(alloc: Global, methods: &[MethodDef], owner: u8) -> Result<Items<u8>, NoMemory>
    requires { length methods.now ≤ 255 }
    ensures { IfOk result (λ numbers. numbers ≡ numbers_of owner 0 (map (λ (d : Method). d.class) methods.now)) }
{
    let mut numbers = Items::new(alloc);
    let mut number: usize = 0;
    for method in methods {
        if method.class == owner {
            numbers.push(number as u8)?;
        }
        number += 1;
    }
    Ok(numbers)
}

/// The class of this number.
fn class_def(
    alloc: Global,
    fields: &[FieldDef],
    methods: &[MethodDef],
    number: u8,
    part: ClassPart,
) -> Result<ClassDef, NoMemory>
    requires few_fields { length fields.now ≤ 255 }
    requires few_methods { length methods.now ≤ 255 }
    ensures { IfOk result (λ d. d ≡ class_def_lem fields.now methods.now number part) }
{
    let fields = field_numbers(alloc, fields, number)?;
    let methods = method_numbers(alloc, methods, number)?;
    let ClassPart { name, invariants } = part;
    Ok(ClassDef {
        name,
        fields,
        methods,
        invariants,
    })
}

/// All classes.
fn class_defs(
    alloc: Global,
    fields: &[FieldDef],
    methods: &[MethodDef],
    mut parts: Items<ClassPart>,
) -> Result<Items<ClassDef>, NoMemory>
    requires few_fields { length fields.now ≤ 255 }
    requires few_methods { length methods.now ≤ 255 }
    requires few_classes { length parts ≤ 255 }
    ensures { IfOk result (λ ds. ds ≡ class_defs_lem fields.now methods.now 0 parts) }
{
    let mut classes = Items::new(alloc);
    for number in 0..parts.len() {
        let part = parts.remove(0);
        classes.push(class_def(alloc, fields, methods, number as u8, part)?)?;
    }
    Ok(classes)
}

/// The unit of these classes, fields and methods.
pub(crate) fn make_unit(alloc: Global, built: Built) -> Result<Unit, NoMemory>
    requires { IsWell (unit_of built) }
    ensures { IfOk result (λ u. u ≡ unit_of built) }
{
    let Built {
        classes,
        fields,
        methods,
    } = built;
    let classes = class_defs(alloc, fields.as_slice(), methods.as_slice(), classes)?;
    Ok(Unit {
        classes,
        fields,
        methods,
    })
}
