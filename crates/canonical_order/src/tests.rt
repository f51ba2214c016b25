ghost use Rattle.std.specs.Prelude.{◌≡◌, [], ◌∷◌, ◌<◌, length, None, false, true, IfOk};
ghost use Rattle.taco_unit.specs.Well.{IsWell};
ghost use Rattle.taco_unit.specs.declared.stmt.Stmt.TheVariants.{Block};
ghost use Rattle.canonical_order.specs.Canonical.{HoldsEachOnce};

use super::*;
use heap_core::{Object, Problem, Start, Value};
use no_memory::NoMemory;
use sqlite_items::Items;
use std::alloc::Global;
use std::test::Fail;
use std::thread::join;
use taco_unit::{ClassDef, MethodDef, Name, Scope, Stmt, Unit};

/// A class with the method 0.
fn class_with_method(alloc: Global) -> Result<Items<ClassDef>, NoMemory>
    ensures { IfOk result (λ cs. cs ≡ record { name = 66 ∷ []; fields = []; methods = 0 ∷ []; invariants = [] } ∷ []) }
{
    let name = Name::new(alloc, b"B")?;
    let methods = Items::from_slice(alloc, &[0])?;
    let mut classes = Items::new(alloc);
    classes.push(ClassDef {
        name,
        fields: Items::new(alloc),
        methods,
        invariants: Items::new(alloc),
    })?;
    Ok(classes)
}

/// A method that does nothing.
fn idle(alloc: Global, name: Name) -> MethodDef
    ensures { result ≡ record { name = name; class = 0; fixed = false; params = []; result = None; locals = []; needs = []; gives = []; body = Block [] } }
{
    MethodDef {
        name,
        class: 0,
        fixed: false,
        params: Items::new(alloc),
        result: None,
        locals: Items::new(alloc),
        needs: Items::new(alloc),
        gives: Items::new(alloc),
        body: Stmt::Block(Items::new(alloc)),
    }
}

fn one_method(alloc: Global) -> Result<Items<MethodDef>, NoMemory>
    ensures { IfOk result (λ ms. ms ≡ record { name = 109 ∷ []; class = 0; fixed = false; params = []; result = None; locals = []; needs = []; gives = []; body = Block [] } ∷ []) }
{
    let name = Name::new(alloc, b"m")?;
    let mut methods = Items::new(alloc);
    methods.push(idle(alloc, name))?;
    Ok(methods)
}

/// The class B with `void m() { }`.
fn idle_unit(classes: Items<ClassDef>, methods: Items<MethodDef>, alloc: Global) -> Unit
    requires { IsWell (record { classes = classes; fields = []; methods = methods }) }
    ensures { result ≡ record { classes = classes; fields = []; methods = methods } }
{
    Unit {
        classes,
        fields: Items::new(alloc),
        methods,
    }
}

fn idle_problem(alloc: Global) -> Result<Problem, NoMemory> {
    let classes = class_with_method(alloc)?;
    let methods = one_method(alloc)?;
    let unit = idle_unit(classes, methods, alloc);
    Ok(Problem {
        unit,
        method: 0,
        scope: Scope {
            objects: 3,
            ints: 4,
            loops: 3,
            calls: 2,
        },
    })
}

/// One object of B, which is the receiver.
fn lone_start(alloc: Global) -> Result<Start, NoMemory>
    ensures { IfOk result (λ s. length s.objects ≡ 1) }
{
    let mut objects = Items::new(alloc);
    objects.push(Object {
        class: 0,
        cells: Items::new(alloc),
    })?;
    Ok(Start {
        objects,
        this: Value::Obj(0),
        args: Items::new(alloc),
    })
}

#[test]
fn a_start_of_one_object_is_renumbered(rt: HostRuntime) -> Result<(), Fail> {
    let problem = idle_problem(rt.alloc())?;
    let start = lone_start(rt.alloc())?;
    assert!(rt; start.fits(&problem));
    let renumbered = renumber(rt.alloc(), &start, &[0], &problem)?;
    assert_eq!(rt; renumbered.this, Value::Obj(0));
    assert_eq!(rt; renumbered.objects.len(), 1);
    Ok(())
}

#[test]
fn a_start_of_one_object_is_visited(rt: HostRuntime) -> Result<(), Fail> {
    let problem = idle_problem(rt.alloc())?;
    let start = lone_start(rt.alloc())?;
    assert!(rt; start.fits(&problem));
    let order = visit_order(rt.alloc(), &start, &problem)?;
    assert_eq!(rt; order.as_slice(), [0].as_slice());
    Ok(())
}

#[test]
fn threads_share_a_problem_and_hand_back_a_start(rt: HostRuntime) -> Result<(), Fail> {
    let alloc = rt.alloc();
    let problem = idle_problem(alloc)?;
    let start = lone_start(alloc)?;
    let (other, fits) = join(&rt, || lone_start(alloc), || start.fits(&problem));
    assert!(rt; fits);
    assert!(rt; other?.fits(&problem));
    Ok(())
}
