ghost use Rattle.std.specs.Prelude.{◌≡◌, ◌==◌, position};
ghost use Rattle.heap_core.specs.Heap.{place_of as place_of_lem};

use sqlite_items::{Items, at};
use taco_unit::{ClassDef, Unit};
/// A value of a local, a field or an expression: null, the object of this number, an `int` or a
/// `boolean`.
#[derive(Clone, Copy, Debug, PartialEq, Eq)]
pub enum Value {
    Null,
    Obj(u8),
    Num(i32),
    Flag(bool),
}

/// An object of the class of this number.
#[derive(Drop)]
pub struct Object {
    pub class: u8,
    /// One value for each field of the class, in the order in which the class lists its fields.
    pub cells: Items<Value>,
}

/// The place of a field among those of a class.
fn place_in(fields: &[u8], field: u8) -> Option<usize>
    ensures { result ≡ position (λ g. g == field) fields.now }
{
    fields.iter().position(|g| *g == field)
}

/// The place of a field among the cells of the objects of a class.
pub(crate) fn place_of(classes: &[ClassDef], class: u8, field: u8) -> Option<usize>
    ensures { result ≡ place_of_lem classes.now class field }
{
    match at(classes, usize::from(class)) {
        Some(d) => place_in(d.fields.as_slice(), field),
        None => None,
    }
}

impl Object {
    ghost use Rattle.heap_core.specs.Heap.{cell};

    /// The value of the field of this number of the unit, where the object's class declares it.
    /// Linear in the class's fields. Takes no memory.
    pub fn cell(&self, unit: &Unit, field: u8) -> Option<Value>
        ensures { result ≡ cell unit.now.classes field self.now }
    {
        match place_of(unit.classes.as_slice(), self.class, field) {
            Some(place) => self.cells.as_slice().get(place).copied(),
            None => None,
        }
    }
}

/// What the evaluation of a clause gives.
#[derive(Clone, Copy, Debug, PartialEq, Eq)]
pub enum Seen {
    Is(Value),
    /// Null was read through, so that there is no value.
    Bad,
    /// A number left the width of the problem's numbers, or a scope was left.
    Out,
}
