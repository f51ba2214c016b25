ghost use Rattle.std.specs.Prelude.{◌≡◌, [], ◌∷◌, None, false, true, IfOk};
ghost use Rattle.taco_unit.specs.Scopes.{IsScope};
ghost use Rattle.taco_unit.specs.Well.{IsWell};
ghost use Rattle.taco_unit.specs.declared.kind.Kind.TheVariants.{Ref as class_kind};
ghost use Rattle.taco_unit.specs.declared.stmt.Stmt.TheVariants.{Block};

use super::*;
use heap_core::{Problem, Value};
use no_memory::NoMemory;
use rel_core::{Indices, RelVar, Valuation, What};
use sqlite_items::Items;
use std::alloc::Global;
use std::test::Fail;
use taco_unit::{ClassDef, FieldDef, Kind, MethodDef, Name, Scope, Stmt, Unit};

/// Which objects are there.
const LIVE: RelVar = RelVar {
    what: What::Live,
    index: 0,
};

/// The only field.
const NEXT: RelVar = RelVar {
    what: What::Field(0),
    index: 0,
};

/// The receiver.
const THIS: RelVar = RelVar {
    what: What::Slot(0),
    index: 0,
};

/// The class B with the field 0 and the method 0.
fn the_class(alloc: Global) -> Result<Items<ClassDef>, NoMemory>
    ensures { IfOk result (λ cs. cs ≡ record { name = 66 ∷ []; fields = 0 ∷ []; methods = 0 ∷ []; invariants = [] } ∷ []) }
{
    let name = Name::new(alloc, b"B")?;
    let fields = Items::from_slice(alloc, &[0])?;
    let methods = Items::from_slice(alloc, &[0])?;
    let mut classes = Items::new(alloc);
    classes.push(ClassDef {
        name,
        fields,
        methods,
        invariants: Items::new(alloc),
    })?;
    Ok(classes)
}

/// Its field `B n`.
fn the_field(alloc: Global) -> Result<Items<FieldDef>, NoMemory>
    ensures { IfOk result (λ fs. fs ≡ record { name = 110 ∷ []; class = 0; kind = class_kind 0; nullable = true } ∷ []) }
{
    let name = Name::new(alloc, b"n")?;
    let mut fields = Items::new(alloc);
    fields.push(FieldDef {
        name,
        class: 0,
        kind: Kind::Ref(0),
        nullable: true,
    })?;
    Ok(fields)
}

/// A method that does nothing.
fn idle(alloc: Global, name: Name) -> MethodDef
    ensures { result ≡ record { name = name; class = 0; fixed = false; params = []; result = None; locals = []; needs = []; gives = []; body = Block [] } }
{
    MethodDef {
        name,
        class: 0,
        fixed: false,
        params: Items::new(alloc),
        result: None,
        locals: Items::new(alloc),
        needs: Items::new(alloc),
        gives: Items::new(alloc),
        body: Stmt::Block(Items::new(alloc)),
    }
}

/// Its method `void m() { }`.
fn the_method(alloc: Global) -> Result<Items<MethodDef>, NoMemory>
    ensures { IfOk result (λ ms. ms ≡ record { name = 109 ∷ []; class = 0; fixed = false; params = []; result = None; locals = []; needs = []; gives = []; body = Block [] } ∷ []) }
{
    let name = Name::new(alloc, b"m")?;
    let mut methods = Items::new(alloc);
    methods.push(idle(alloc, name))?;
    Ok(methods)
}

/// The unit of these.
fn unit_of(classes: Items<ClassDef>, fields: Items<FieldDef>, methods: Items<MethodDef>) -> Unit
    requires { IsWell (record { classes = classes; fields = fields; methods = methods }) }
    ensures { result ≡ record { classes = classes; fields = fields; methods = methods } }
{
    Unit {
        classes,
        fields,
        methods,
    }
}

/// Two objects.
fn small_scope() -> Scope
    ensures { IsScope result }
{
    Scope {
        objects: 2,
        ints: 3,
        loops: 0,
        calls: 0,
    }
}

fn small_problem(alloc: Global) -> Result<Problem, NoMemory> {
    let classes = the_class(alloc)?;
    let fields = the_field(alloc)?;
    let methods = the_method(alloc)?;
    let unit = unit_of(classes, fields, methods);
    Ok(Problem {
        unit,
        method: 0,
        scope: small_scope(),
    })
}

/// Whether the formula at first indices holds of a valuation.
fn is_canonical_start(
    alloc: Global,
    problem: &Problem,
    pairs: &[(RelVar, u8, Value)],
) -> Result<bool, NoMemory> {
    let at = Indices::first(alloc, problem)?;
    let formula = canon_formula(alloc, problem, &at)?;
    let valuation = Valuation {
        pairs: Items::from_slice(alloc, pairs)?,
    };
    Ok(formula.get().holds(&valuation, small_scope()))
}

/// The first object, and the second, is there.
const FIRST: (RelVar, u8, Value) = (LIVE, 0, Value::Flag(true));

const SECOND: (RelVar, u8, Value) = (LIVE, 1, Value::Flag(true));

/// Valuations. What stands in a row twice is said once.
static ROWS: [[(RelVar, u8, Value); 5]; 12] = [
    // one object, whose field is null, or itself
    [
        FIRST,
        FIRST,
        FIRST,
        (THIS, 0, Value::Obj(0)),
        (NEXT, 0, Value::Null),
    ],
    [
        FIRST,
        FIRST,
        FIRST,
        (THIS, 0, Value::Obj(0)),
        (NEXT, 0, Value::Obj(0)),
    ],
    // an object that is not there, no value, two values
    [
        FIRST,
        FIRST,
        FIRST,
        (THIS, 0, Value::Obj(0)),
        (NEXT, 0, Value::Obj(1)),
    ],
    [FIRST, FIRST, FIRST, FIRST, (THIS, 0, Value::Obj(0))],
    [
        FIRST,
        FIRST,
        (THIS, 0, Value::Obj(0)),
        (NEXT, 0, Value::Null),
        (NEXT, 0, Value::Obj(0)),
    ],
    // no receiver, or null
    [FIRST, FIRST, FIRST, FIRST, (NEXT, 0, Value::Null)],
    [
        FIRST,
        FIRST,
        FIRST,
        (THIS, 0, Value::Null),
        (NEXT, 0, Value::Null),
    ],
    // a value at an object that is not there
    [
        FIRST,
        FIRST,
        (THIS, 0, Value::Obj(0)),
        (NEXT, 0, Value::Null),
        (NEXT, 1, Value::Null),
    ],
    // two objects, and the same with their numbers exchanged
    [
        FIRST,
        SECOND,
        (THIS, 0, Value::Obj(0)),
        (NEXT, 0, Value::Obj(1)),
        (NEXT, 1, Value::Null),
    ],
    [
        FIRST,
        SECOND,
        (THIS, 0, Value::Obj(1)),
        (NEXT, 1, Value::Obj(0)),
        (NEXT, 0, Value::Null),
    ],
    // the second is not reached; the first is not there
    [
        FIRST,
        SECOND,
        (THIS, 0, Value::Obj(0)),
        (NEXT, 0, Value::Null),
        (NEXT, 1, Value::Obj(0)),
    ],
    [
        SECOND,
        SECOND,
        SECOND,
        (THIS, 0, Value::Obj(1)),
        (NEXT, 1, Value::Null),
    ],
];

/// The rows of which the formula holds.
fn rows_that_hold(alloc: Global) -> Result<Items<u8>, NoMemory> {
    let problem = small_problem(alloc)?;
    let mut rows = Items::new(alloc);
    for row in 0..12u8 {
        if is_canonical_start(alloc, &problem, &ROWS[usize::from(row)])? {
            rows.push(row)?;
        }
    }
    Ok(rows)
}

#[test]
fn canonical_starts_alone_are_shown(rt: HostRuntime) -> Result<(), Fail> {
    let rows = rows_that_hold(rt.alloc())?;
    assert_eq!(rt; rows.as_slice(), [0, 1, 8].as_slice());
    Ok(())
}
