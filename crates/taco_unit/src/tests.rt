ghost use Rattle.std.specs.Prelude.{◌≡◌, [], IfOk};
ghost use Rattle.taco_unit.specs.Well.{IsWell};

use super::*;
use no_memory::NoMemory;
use sqlite_items::Items;
use std::alloc::Global;
use std::test::Fail;

/// A class without members.
fn bare_class(alloc: Global, name: Name) -> ClassDef
    ensures { result ≡ record { name = name; fields = []; methods = []; invariants = [] } }
{
    ClassDef {
        name,
        fields: Items::new(alloc),
        methods: Items::new(alloc),
        invariants: Items::new(alloc),
    }
}

fn unit_of(alloc: Global, classes: Items<ClassDef>) -> Unit
    requires { IsWell (record { classes = classes; fields = []; methods = [] }) }
{
    Unit {
        classes,
        fields: Items::new(alloc),
        methods: Items::new(alloc),
    }
}

fn one_class(alloc: Global) -> Result<Items<ClassDef>, NoMemory>
    ensures { IfOk result (λ classes. IsWell (record { classes = classes; fields = []; methods = [] })) }
{
    let name = Name::new(alloc, b"B")?;
    let mut classes = Items::new(alloc);
    classes.push(bare_class(alloc, name))?;
    Ok(classes)
}

#[test]
fn a_name_is_its_bytes(rt: HostRuntime) -> Result<(), Fail> {
    let name = Name::new(rt.alloc(), b"B")?;
    assert_eq!(rt; name.bytes(), b"B".as_slice());
    Ok(())
}

#[test]
fn a_class_is_found_by_its_whole_name(rt: HostRuntime) -> Result<(), Fail> {
    let unit = unit_of(rt.alloc(), one_class(rt.alloc())?);
    assert_eq!(rt; unit.class_named(b"B"), Some(0));
    assert_eq!(rt; unit.class_named(b"BB"), None);
    assert_eq!(rt; unit.class_named(b""), None);
    assert_eq!(rt; unit.method_named(0, b"B"), None);
    Ok(())
}
