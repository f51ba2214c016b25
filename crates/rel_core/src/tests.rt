ghost use Rattle.taco_unit.specs.Scopes.{IsScope};

use super::*;
use heap_core::Value;
use no_memory::NoMemory;
use sqlite_items::{Boxed, Items};
use std::alloc::Global;
use std::test::Fail;
use taco_unit::Scope;

/// Class 0 for object 0, class 1 for objects 1 and 2.
const CLASS: RelVar = RelVar {
    what: What::ClassOf,
    index: 0,
};

/// From object 0 to 1, from 1 to 2 and back: a cycle that 0 leads into.
const NEXT: RelVar = RelVar {
    what: What::Field(0),
    index: 0,
};

/// As `NEXT`, but that object 0 leads to null.
const LATER: RelVar = RelVar {
    what: What::Field(0),
    index: 1,
};

/// 3, 2 and -4.
const AGE: RelVar = RelVar {
    what: What::Field(1),
    index: 0,
};

/// True at object 0 alone.
const OPEN: RelVar = RelVar {
    what: What::Field(2),
    index: 0,
};

/// Object 0.
const HEAD: RelVar = RelVar {
    what: What::Slot(0),
    index: 0,
};

/// Objects 0 and 1, which no variable of a state has at once.
const PAIR: RelVar = RelVar {
    what: What::Slot(1),
    index: 0,
};

/// 2.
const SIZE: RelVar = RelVar {
    what: What::Slot(2),
    index: 0,
};

/// True.
const DONE: RelVar = RelVar {
    what: What::Slot(3),
    index: 0,
};

/// Null.
const NONE: RelVar = RelVar {
    what: What::Slot(4),
    index: 0,
};

/// The values of these relations. Of two numbers, and of two truth values, the first counts, and what is said of
/// object 3 plays no part where there are three objects.
static TRIPLES: [(RelVar, u8, Value); 23] = [
    (CLASS, 1, Value::Num(1)),
    (CLASS, 2, Value::Num(1)),
    (NEXT, 0, Value::Obj(1)),
    (NEXT, 1, Value::Obj(2)),
    (NEXT, 2, Value::Obj(1)),
    (NEXT, 2, Value::Obj(3)),
    (NEXT, 3, Value::Obj(0)),
    (LATER, 0, Value::Null),
    (LATER, 1, Value::Obj(2)),
    (LATER, 2, Value::Obj(1)),
    (AGE, 0, Value::Num(3)),
    (AGE, 1, Value::Num(2)),
    (AGE, 1, Value::Num(-1)),
    (AGE, 2, Value::Num(-4)),
    (OPEN, 0, Value::Flag(true)),
    (OPEN, 0, Value::Flag(false)),
    (OPEN, 3, Value::Flag(true)),
    (HEAD, 0, Value::Obj(0)),
    (PAIR, 0, Value::Obj(0)),
    (PAIR, 0, Value::Obj(1)),
    (SIZE, 0, Value::Num(2)),
    (DONE, 0, Value::Flag(true)),
    (NONE, 0, Value::Null),
];

/// A formula, and whether it holds under these triples.
#[derive(Drop)]
struct Row {
    formula: Boxed<Formula>,
    wanted: bool,
}

fn add(rows: &mut Vec<Row>, formula: Boxed<Formula>, wanted: bool) -> Result<(), NoMemory> {
    rows.push(Row { formula, wanted })?;
    Ok(())
}

/// What is reached along `NEXT`.
fn along(alloc: Global, set: Boxed<RelExpr>) -> Result<Boxed<RelExpr>, NoMemory> {
    let relations = Items::from_slice(alloc, &[NEXT])?;
    RelExpr::reach(alloc, set, relations)
}

/// The objects that are reached from this one.
fn reached(alloc: Global, object: u8) -> Result<Boxed<RelExpr>, NoMemory> {
    let set = RelExpr::object(alloc, object)?;
    along(alloc, set)
}

/// The number is this one.
fn is(alloc: Global, number: Boxed<NumExpr>, z: i32) -> Result<Boxed<Formula>, NoMemory> {
    let z = NumExpr::constant(alloc, z)?;
    Formula::same_number(alloc, number, z)
}

fn rows_of_reached(alloc: Global, rows: &mut Vec<Row>) -> Result<(), NoMemory> {
    let behind_two_steps = RelExpr::object(alloc, 2)?;
    let from_head = along(alloc, RelExpr::variable(alloc, HEAD)?)?;
    add(
        rows,
        Formula::subset(alloc, behind_two_steps, from_head)?,
        true,
    )?;
    let before = RelExpr::object(alloc, 0)?;
    add(
        rows,
        Formula::subset(alloc, before, reached(alloc, 1)?)?,
        false,
    )?;
    let from_null = along(alloc, RelExpr::nil(alloc)?)?;
    add(
        rows,
        Formula::subset(alloc, RelExpr::nil(alloc)?, from_null)?,
        false,
    )?;
    let counted = NumExpr::count(alloc, reached(alloc, 0)?)?;
    add(rows, is(alloc, counted, 3)?, true)
}

fn rows_of_sets(alloc: Global, rows: &mut Vec<Row>) -> Result<(), NoMemory> {
    let behind_pair = RelExpr::join(alloc, RelExpr::variable(alloc, PAIR)?, NEXT)?;
    add(
        rows,
        Formula::subset(alloc, behind_pair, reached(alloc, 1)?)?,
        true,
    )?;
    let pair = RelExpr::variable(alloc, PAIR)?;
    let head = RelExpr::variable(alloc, HEAD)?;
    add(rows, Formula::subset(alloc, pair, head)?, false)?;
    let none = RelExpr::variable(alloc, NONE)?;
    add(
        rows,
        Formula::subset(alloc, RelExpr::nil(alloc)?, none)?,
        true,
    )?;
    let next = RelExpr::join(alloc, RelExpr::variable(alloc, HEAD)?, NEXT)?;
    add(rows, Formula::is_class(alloc, next, 1, CLASS)?, true)?;
    let pair = RelExpr::variable(alloc, PAIR)?;
    add(rows, Formula::is_class(alloc, pair, 0, CLASS)?, false)?;
    let nothing = RelExpr::nil(alloc)?;
    add(rows, Formula::is_class(alloc, nothing, 5, CLASS)?, true)
}

fn rows_of_flags(alloc: Global, rows: &mut Vec<Row>) -> Result<(), NoMemory> {
    add(rows, Formula::flag(alloc, DONE)?, true)?;
    let head = RelExpr::variable(alloc, HEAD)?;
    add(rows, Formula::flag_at(alloc, head, OPEN)?, true)?;
    let two = RelExpr::variable(alloc, PAIR)?;
    add(rows, Formula::flag_at(alloc, two, OPEN)?, false)?;
    let beyond = RelExpr::object(alloc, 3)?;
    add(rows, Formula::flag_at(alloc, beyond, OPEN)?, false)
}

fn rows_of_places(alloc: Global, rows: &mut Vec<Row>) -> Result<(), NoMemory> {
    let head = NumExpr::at(alloc, RelExpr::variable(alloc, HEAD)?, AGE)?;
    add(rows, is(alloc, head, 3)?, true)?;
    let given_twice = NumExpr::at(alloc, RelExpr::object(alloc, 1)?, AGE)?;
    add(rows, is(alloc, given_twice, 2)?, true)?;
    let of_two = NumExpr::at(alloc, RelExpr::variable(alloc, PAIR)?, AGE)?;
    add(rows, is(alloc, of_two, 0)?, true)?;
    let size = NumExpr::variable(alloc, SIZE)?;
    add(rows, is(alloc, size, 2)?, true)?;
    let wide = NumExpr::constant(alloc, 4)?;
    add(rows, is(alloc, wide, 4)?, false)
}

fn rows_of_operations(alloc: Global, rows: &mut Vec<Row>) -> Result<(), NoMemory> {
    let one = NumExpr::constant(alloc, 1)?;
    let sum = NumExpr::sum(alloc, NumExpr::variable(alloc, SIZE)?, one)?;
    add(rows, is(alloc, sum, 3)?, true)?;
    let two = NumExpr::constant(alloc, 2)?;
    let sum = NumExpr::sum(alloc, NumExpr::variable(alloc, SIZE)?, two)?;
    add(rows, Formula::fits(alloc, sum)?, false)?;
    let least = NumExpr::at(alloc, RelExpr::object(alloc, 2)?, AGE)?;
    let below_least = NumExpr::difference(alloc, least, NumExpr::constant(alloc, 1)?)?;
    add(rows, Formula::fits(alloc, below_least)?, false)
}

fn rows_of_products(alloc: Global, rows: &mut Vec<Row>) -> Result<(), NoMemory> {
    let minus_two = NumExpr::constant(alloc, -2)?;
    let product = NumExpr::product(alloc, NumExpr::variable(alloc, SIZE)?, minus_two)?;
    add(rows, is(alloc, product, -4)?, true)?;
    let two = NumExpr::constant(alloc, 2)?;
    let product = NumExpr::product(alloc, NumExpr::variable(alloc, SIZE)?, two)?;
    add(rows, Formula::fits(alloc, product)?, false)?;
    let three = NumExpr::constant(alloc, 3)?;
    let size = NumExpr::variable(alloc, SIZE)?;
    add(rows, Formula::below(alloc, size, three)?, true)?;
    let size = NumExpr::variable(alloc, SIZE)?;
    let wide = NumExpr::constant(alloc, 4)?;
    add(rows, Formula::below(alloc, size, wide)?, false)
}

fn rows_of_changes(alloc: Global, rows: &mut Vec<Row>) -> Result<(), NoMemory> {
    let head = RelExpr::variable(alloc, HEAD)?;
    add(
        rows,
        Formula::changed(alloc, LATER, head, NONE, NEXT)?,
        true,
    )?;
    let nothing = RelExpr::nil(alloc)?;
    add(
        rows,
        Formula::changed(alloc, NEXT, nothing, NONE, NEXT)?,
        true,
    )?;
    let nothing = RelExpr::nil(alloc)?;
    add(
        rows,
        Formula::changed(alloc, LATER, nothing, NONE, NEXT)?,
        false,
    )?;
    let other = RelExpr::object(alloc, 1)?;
    add(
        rows,
        Formula::changed(alloc, NEXT, other, NONE, NEXT)?,
        false,
    )?;
    let head = RelExpr::variable(alloc, HEAD)?;
    add(rows, Formula::changed(alloc, AGE, head, NONE, NEXT)?, false)
}

/// A condition that holds, and one that does not.
fn truths(alloc: Global) -> Result<(Boxed<Formula>, Boxed<Formula>), NoMemory> {
    let holds = Formula::flag(alloc, DONE)?;
    let two = RelExpr::variable(alloc, PAIR)?;
    let fails = Formula::flag_at(alloc, two, OPEN)?;
    Ok((holds, fails))
}

fn rows_of_connectives(alloc: Global, rows: &mut Vec<Row>) -> Result<(), NoMemory> {
    let (holds, fails) = truths(alloc)?;
    add(rows, Formula::both(alloc, holds, fails)?, false)?;
    let (holds, fails) = truths(alloc)?;
    add(rows, Formula::either(alloc, fails, holds)?, true)?;
    let (holds, fails) = truths(alloc)?;
    add(rows, Formula::implies(alloc, fails, holds)?, true)?;
    let (holds, fails) = truths(alloc)?;
    add(rows, Formula::same(alloc, holds, fails)?, false)?;
    let (holds, fails) = truths(alloc)?;
    add(rows, Formula::not(alloc, fails)?, true)?;
    add(rows, Formula::not(alloc, holds)?, false)
}

/// A list of such conditions, among constants.
fn parts(alloc: Global, constant: bool) -> Result<Items<Formula>, NoMemory> {
    let (holds, fails) = truths(alloc)?;
    let mut parts = Items::new(alloc);
    parts.push(Formula::constant(alloc, constant)?.into_inner())?;
    parts.push(holds.into_inner())?;
    parts.push(Formula::constant(alloc, constant)?.into_inner())?;
    parts.push(fails.into_inner())?;
    Ok(parts)
}

fn rows_of_lists(alloc: Global, rows: &mut Vec<Row>) -> Result<(), NoMemory> {
    add(rows, Formula::all(alloc, parts(alloc, true)?)?, false)?;
    add(rows, Formula::any(alloc, parts(alloc, false)?)?, true)?;
    add(rows, Formula::all(alloc, parts(alloc, false)?)?, false)?;
    add(rows, Formula::any(alloc, parts(alloc, true)?)?, true)?;
    add(rows, Formula::all(alloc, Items::new(alloc))?, true)?;
    add(rows, Formula::any(alloc, Items::new(alloc))?, false)
}

/// Formulas of every form.
fn table(alloc: Global) -> Result<Vec<Row>, NoMemory> {
    let mut rows = Vec::new(alloc);
    rows_of_reached(alloc, &mut rows)?;
    rows_of_sets(alloc, &mut rows)?;
    rows_of_flags(alloc, &mut rows)?;
    rows_of_places(alloc, &mut rows)?;
    rows_of_operations(alloc, &mut rows)?;
    rows_of_products(alloc, &mut rows)?;
    rows_of_changes(alloc, &mut rows)?;
    rows_of_connectives(alloc, &mut rows)?;
    rows_of_lists(alloc, &mut rows)?;
    Ok(rows)
}

/// Indices of two fields and two variables.
fn some_indices(alloc: Global) -> Result<Indices, NoMemory> {
    let heap = Items::from_slice(alloc, &[4, 5])?;
    let slots = Items::from_slice(alloc, &[(0, 7), (3, 8), (3, 9)])?;
    Ok(Indices {
        heap,
        live: 6,
        slots,
        result: 3,
    })
}

/// Three objects, and numbers from -4 to 3.
fn small_scope() -> Scope
    ensures { IsScope result }
{
    Scope {
        objects: 3,
        ints: 3,
        loops: 0,
        calls: 0,
    }
}

fn valuation(alloc: Global) -> Result<Valuation, NoMemory> {
    let pairs = Items::from_slice(alloc, &TRIPLES)?;
    Ok(Valuation { pairs })
}

#[test]
fn formulas_hold_as_the_table_says(rt: HostRuntime) -> Result<(), Fail> {
    let valuation = valuation(rt.alloc())?;
    for (place, row) in table(rt.alloc())?.iter().enumerate() {
        let holds = row.formula.get().holds(&valuation, small_scope());
        assert_eq!(rt; holds, row.wanted, "row {place}");
    }
    Ok(())
}

#[test]
fn copies_hold_too_and_constants_go(rt: HostRuntime) -> Result<(), Fail> {
    let alloc = rt.alloc();
    let valuation = valuation(alloc)?;
    for (place, row) in table(alloc)?.iter().enumerate() {
        let copied = row.formula.get().copy(alloc)?;
        let holds = copied.get().holds(&valuation, small_scope());
        assert_eq!(rt; holds, row.wanted, "row {place}");
    }
    let at = some_indices(alloc)?.copy(alloc)?;
    assert_eq!(rt; at.field(1).index, 5);
    assert_eq!(rt; at.slot(3).index, 8);
    assert_eq!(rt; at.slot(1).index, 0);
    assert_eq!(rt; at.class().index, at.live().index);
    let truth = Formula::constant(alloc, true)?;
    let flag = Formula::flag(alloc, DONE)?;
    let beside_true = Formula::both(alloc, truth, flag)?;
    assert!(rt; matches!(beside_true.get(), Formula::Flag(DONE)));
    let opposite = Formula::not(alloc, beside_true)?;
    let twice = Formula::not(alloc, opposite)?;
    assert!(rt; matches!(twice.get(), Formula::Flag(_)));
    Ok(())
}
