ghost use Rattle.std.specs.Prelude.{◌≡◌, IfOk};
ghost use Rattle.rel_core.specs.declared.relation.What.TheVariants as what;
ghost use Rattle.dyn_steps.specs.Points.{relation_at, var_moved, field_moved, fields_moved, made_point};

use no_memory::NoMemory;
use rel_core::{RelVar, What};
use sqlite_items::Items;
use std::alloc::Global;

/// The indices of all relations at one point of a run.
#[derive(Drop)]
pub struct Point {
    /// The index of each field of the unit.
    pub fields: Items<u32>,
    /// The index of the relations that say which objects are there, and of which class each is.
    pub live: u32,
    /// The index of each program variable that has a kind.
    pub vars: Items<u32>,
}

impl Point {
    /// The relation of a field. Takes constant time and no memory, as do the next three.
    pub fn field(&self, field: u8) -> RelVar
        ensures { result ≡ relation_at self.now (what.Field field) }
    {
        let index = self.fields.get(usize::from(field)).copied().unwrap_or(0);
        RelVar {
            what: What::Field(field),
            index,
        }
    }

    /// The relation of a program variable.
    pub fn slot(&self, variable: u16) -> RelVar
        ensures { result ≡ relation_at self.now (what.Slot variable) }
    {
        let index = self.vars.get(usize::from(variable)).copied().unwrap_or(0);
        RelVar {
            what: What::Slot(variable),
            index,
        }
    }

    /// The relation that says which objects are there.
    pub fn live(&self) -> RelVar
        ensures { result ≡ relation_at self.now what.Live }
    {
        RelVar {
            what: What::Live,
            index: self.live,
        }
    }

    /// The relation that says of which class each object is.
    pub fn class(&self) -> RelVar
        ensures { result ≡ relation_at self.now what.ClassOf }
    {
        RelVar {
            what: What::ClassOf,
            index: self.live,
        }
    }

    /// The same indices once more. Linear in them.
    pub fn copy(&self, alloc: Global) -> Result<Point, NoMemory>
        ensures { IfOk result (λ at. at ≡ self.now) }
    {
        let fields = Items::from_slice(alloc, self.fields.as_slice())?;
        let vars = Items::from_slice(alloc, self.vars.as_slice())?;
        Ok(Point {
            fields,
            live: self.live,
            vars,
        })
    }
}

/// The indices, with another one for a variable. Takes constant time and no memory.
pub(crate) fn with_var(at: Point, variable: u16, index: u32) -> Point
    ensures { result ≡ var_moved at variable index }
{
    let mut vars = at.vars;
    if usize::from(variable) < vars.len() {
        vars.set(usize::from(variable), index);
    }
    Point {
        fields: at.fields,
        live: at.live,
        vars,
    }
}

/// The indices, with another one for a field. Takes constant time and no memory.
pub(crate) fn with_field(at: Point, field: u8, index: u32) -> Point
    ensures { result ≡ field_moved at field index }
{
    let mut fields = at.fields;
    if usize::from(field) < fields.len() {
        fields.set(usize::from(field), index);
    }
    Point {
        fields,
        live: at.live,
        vars: at.vars,
    }
}

/// The indices, with another one for each of these fields. Linear in them; takes no memory.
fn with_fields(at: Point, fields: &[u8], index: u32) -> Point
    ensures { result ≡ fields_moved at fields.now index }
{
    let mut at = at;
    for field in fields {
        at = with_field(at, *field, index);
    }
    at
}

/// The indices, with another one for what a new object of a class of these fields changes, and for a variable.
pub(crate) fn with_new(at: Point, variable: u16, fields: &[u8], index: u32) -> Point
    ensures { result ≡ made_point at variable fields.now index }
{
    let moved = with_fields(at, fields, index);
    let heap = Point {
        fields: moved.fields,
        live: index,
        vars: moved.vars,
    };
    with_var(heap, variable, index)
}
