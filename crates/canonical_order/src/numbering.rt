ghost use Rattle.std.specs.Prelude.{◌≡◌, ◌≤◌, ◌++◌, length, map, filter_map, slice_get, option_map, option_to_list, IfOk, OnOk};
ghost use Rattle.heap_core.specs.Start.{Fits};
ghost use Rattle.canonical_order.specs.Canonical.{HoldsEachOnce, number_in as number_in_lem, renamed as renamed_lem, renamed_object as renamed_object_lem, renumbered};

use heap_core::{Object, Problem, Start, Value};
use no_memory::NoMemory;
use sqlite_items::{Items, at};
use std::alloc::Global;
use std::marker::Model;

/// An order of the objects, and the place of each in it.
#[derive(Drop)]
struct Numbers<'a> {
    order: &'a [u8],
    table: Vec<u8>,
}

impl<'a> Model for Numbers<'a> {
    ghost use Rattle.std.specs.Prelude.{ℕ, List};
    ghost use Rattle.canonical_order.specs.Numbers.{AreNumbers};

    ghost Value = { List ℕ };

    ghost view = { λ n. n.order.now };

    ghost invariant = { λ n. AreNumbers n.table.items n.order.now };
}

impl<'a> Numbers<'a> {
    /// The places in a list that holds each object once. It goes once along the list.
    fn new(alloc: Global, order: &'a [u8]) -> Result<Numbers<'a>, NoMemory>
        requires few { length order.now ≤ 12 }
        requires each_once { HoldsEachOnce order.now (length order.now) }
        ensures { IfOk result (λ n. n ≡ order.now) }
    {
        let mut table = vec![in alloc; 0; order.len()]?;
        for place in 0..order.len() {
            table[usize::from(order[place])] = place as u8;
        }
        Ok(Numbers { order, table })
    }

    /// The new number of an object: its place in the order, or the order's length.
    fn number(&self, object: u8) -> usize
        ensures { result ≡ number_in_lem self.now object }
    {
        match self.table.get(usize::from(object)) {
            Some(number) => usize::from(*number),
            None => self.table.len(),
        }
    }
}

#[tactic(auto, using(crate::proofs::NumbersLemmas::number_at_most))]
/// The value under the new numbers.
fn renamed(numbers: &Numbers, value: Value) -> Value
    requires { length numbers.now ≤ 12 }
    ensures { result ≡ renamed_lem numbers.now value }
{
    match value {
        Value::Obj(object) => Value::Obj(numbers.number(object) as u8),
        _ => value,
    }
}

/// The values under the new numbers.
fn all_renamed(alloc: Global, numbers: &Numbers, values: &[Value]) -> Result<Items<Value>, NoMemory>
    requires { length numbers.now ≤ 12 }
    ensures { IfOk result (λ vs. vs ≡ map (renamed_lem numbers.now) values.now) }
{
    let mut all = Items::new(alloc);
    for value in values {
        all.push(renamed(numbers, *value))?;
    }
    Ok(all)
}

/// The object of this number, under the new numbers, behind those that were taken.
fn push_renamed(
    alloc: Global,
    numbers: &Numbers,
    objects: &[Object],
    object: u8,
    all: &mut Items<Object>,
) -> Result<(), NoMemory>
    requires { length numbers.now ≤ 12 }
    ensures { OnOk result (all.new ≡ all.old ++ option_to_list (option_map (renamed_object_lem numbers.now) (slice_get objects.now object))) }
{
    let Some(object) = at(objects, usize::from(object)) else {
        return Ok(());
    };
    let cells = all_renamed(alloc, numbers, object.cells.as_slice())?;
    all.push(Object {
        class: object.class,
        cells,
    })?;
    Ok(())
}

/// The objects in the new order, under the new numbers.
fn reordered(
    alloc: Global,
    numbers: &Numbers,
    order: &[u8],
    objects: &[Object],
) -> Result<Items<Object>, NoMemory>
    requires same { numbers.now ≡ order.now }
    requires few { length order.now ≤ 12 }
    ensures { IfOk result (λ xs. xs ≡ filter_map (λ o. option_map (renamed_object_lem order.now) (slice_get objects.now o)) order.now) }
{
    let mut all = Items::new(alloc);
    for place in order {
        push_renamed(alloc, numbers, objects, *place, &mut all)?;
    }
    Ok(all)
}

/// The start under the numbering of a list that holds each object once: the object `order[i]` becomes
/// the object i. It goes once along the order and once along the values of the start.
pub fn renumber(
    alloc: Global,
    start: &Start,
    order: &[u8],
    problem: &Problem,
) -> Result<Start, NoMemory>
    requires fits { Fits start.now problem.now }
    requires each_once { HoldsEachOnce order.now (length start.now.objects) }
    ensures { IfOk result (λ t. t ≡ renumbered start.now order.now) }
{
    // the problem's own bound, that there are at most 12 objects, is known once a field is read
    let _scope = problem.scope;
    let numbers = Numbers::new(alloc, order)?;
    let objects = reordered(alloc, &numbers, order, start.objects.as_slice())?;
    let args = all_renamed(alloc, &numbers, start.args.as_slice())?;
    Ok(Start {
        objects,
        this: renamed(&numbers, start.this),
        args,
    })
}
