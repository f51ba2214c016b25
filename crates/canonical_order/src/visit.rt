ghost use Rattle.std.specs.List.{list_any};
ghost use Rattle.std.specs.Prelude.{◌≡◌, ◌<◌, ◌==◌, ◌&&◌, ◌++◌, not, nat_lt, [], ◌∷◌, length, flat_map, slice_get, option_to_list, IfOk, OnOk};
ghost use Rattle.heap_core.specs.Start.{Fits};
ghost use Rattle.canonical_order.specs.Canonical.{cells_of, IsVisit};
ghost use Rattle.canonical_order.specs.Met.{Met};
ghost use Rattle.canonical_order.specs.Visiting.{with_value, with_values, with_fields, visited};

use heap_core::{Object, Problem, Start, Value};
use no_memory::NoMemory;
use sqlite_items::at;
use std::alloc::Global;
use std::marker::Model;

/// The objects of a heap that were met so far, in the order in which they were. A table by their
/// numbers answers at once whether one was.
#[derive(Drop)]
struct Visit {
    table: Vec<bool>,
    order: Vec<u8>,
}

impl Model for Visit {
    ghost use Rattle.std.specs.Prelude.{length};
    ghost use Rattle.canonical_order.specs.Met.{Met, AreMet};

    ghost Value = { Met };

    ghost view = { λ v. record { count = length v.table.items; order = v.order.items } };

    ghost invariant = { λ v. AreMet v.table.items v.order.items };
}

impl Visit {
    /// None of so many objects was met.
    fn new(alloc: Global, count: usize) -> Result<Visit, NoMemory>
        ensures { IfOk result (λ v. v ≡ record { count = count; order = [] }) }
    {
        Ok(Visit {
            table: vec![in alloc; false; count]?,
            order: Vec::new(alloc),
        })
    }

    /// Whether the object is one of the heap's that was not met yet.
    fn is_new(&self, object: u8) -> bool
        ensures { result ≡ (nat_lt object self.now.count && not (list_any (λ q. q == object) self.now.order)) }
    {
        match self.table.get(usize::from(object)) {
            Some(is_met) => !*is_met,
            None => false,
        }
    }

    /// Puts an object behind the others.
    fn push(&mut self, object: u8) -> Result<(), NoMemory>
        requires { object < self.old.count }
        ensures { OnOk result (self.new ≡ record self.old { order = self.old.order ++ object ∷ [] }) }
    {
        self.order.push(object)?;
        self.table[usize::from(object)] = true;
        Ok(())
    }

    /// Comes upon a value: an object that was not met yet is the next.
    fn meet(&mut self, value: Value) -> Result<(), NoMemory>
        ensures { OnOk result (self.new ≡ record self.old { order = with_value self.old.count self.old.order value }) }
    {
        let Value::Obj(object) = value else {
            return Ok(());
        };
        if !self.is_new(object) {
            return Ok(());
        }
        self.push(object)
    }

    /// Comes upon each of these values.
    fn meet_all(&mut self, values: &[Value]) -> Result<(), NoMemory>
        ensures { OnOk result (self.new ≡ record self.old { order = with_values self.old.count self.old.order values.now }) }
    {
        for value in values {
            self.meet(*value)?;
        }
        Ok(())
    }

    /// Comes upon the fields of the object at this place of the order.
    fn meet_fields(&mut self, objects: &[Object], place: usize) -> Result<(), NoMemory>
        requires { length objects.now ≡ self.old.count }
        ensures { OnOk result (self.new ≡ record self.old { order = with_fields objects.now self.old.order place }) }
    {
        let Some(object) = self.at(place) else {
            return Ok(());
        };
        match at(objects, usize::from(object)) {
            Some(object) => self.meet_all(object.cells.as_slice()),
            None => Ok(()),
        }
    }

    /// The object at this place of the order.
    fn at(&self, place: usize) -> Option<u8>
        ensures { result ≡ slice_get self.now.order place }
    {
        self.order.get(place).copied()
    }

    /// The objects that were met.
    fn into_order(self) -> Vec<u8>
        ensures { result.items ≡ self.order }
    {
        self.order
    }
}

/// The visit of a start: its objects breadth first, from the receiver, then the arguments, then the
/// fields of each object in the order in which the objects were met. It goes once along the values of
/// the start.
///
/// # Errors
///
/// [`NoMemory`] where there is none for the list.
pub fn visit_order(alloc: Global, start: &Start, _problem: &Problem) -> Result<Vec<u8>, NoMemory>
    requires { Fits start.now _problem.now }
    ensures { IfOk result (λ order. IsVisit start.now order.items) }
{
    let objects = start.objects.as_slice();
    let mut visit = Visit::new(alloc, objects.len())?;
    visit.meet(start.this)?;
    visit.meet_all(start.args.as_slice())?;
    for place in 0..objects.len() {
        visit.meet_fields(objects, place)?;
    }
    Ok(visit.into_order())
}
