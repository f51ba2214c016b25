ghost use Rattle.std.specs.Prelude.{◌≡◌, ◌+◌, ℕ, length, map, replicate, IfOk};
ghost use Rattle.rel_core.specs.Shown.{slot_index as slot_index_lem};
ghost use Rattle.rel_core.specs.Reading.{numbers_below};

use crate::relation::{RelVar, What};
use heap_core::{Problem, method_in};
use no_memory::NoMemory;
use sqlite_items::Items;
use std::alloc::Global;

/// At which indices the relations of a point of a run stand.
#[derive(Drop)]
pub struct Indices {
    /// The index of each field of the unit.
    pub heap: Items<u32>,
    /// The index of the relations that say which objects are there, and of which class each is.
    pub live: u32,
    /// The indices of program variables, by the variable's number; of several for one variable the first counts.
    pub slots: Items<(u16, u32)>,
    /// The program variable that has the result.
    pub result: u16,
}

/// The index that is listed first for a variable.
fn slot_index(slots: &[(u16, u32)], variable: u16) -> u32
    ensures { result ≡ slot_index_lem slots.now variable }
{
    for slot in slots {
        if slot.0 == variable {
            return slot.1;
        }
    }
    0
}

/// Index 0 for each of so many fields.
fn first_fields(alloc: Global, count: usize) -> Result<Items<u32>, NoMemory>
    ensures { IfOk result (λ heap. heap ≡ replicate count 0) }
{
    let mut heap = Items::new(alloc);
    for _field in 0..count {
        heap.push(0)?;
    }
    Ok(heap)
}

/// Index 0 for each of so many variables, at most 9.
fn first_slots(alloc: Global, count: u16) -> Result<Items<(u16, u32)>, NoMemory>
    ensures { IfOk result (λ slots. slots ≡ map (λ x. record { 0 = x; 1 = 0 }) (numbers_below count)) }
{
    let mut slots = Items::new(alloc);
    for variable in 0..count {
        slots.push((variable, 0))?;
    }
    Ok(slots)
}

impl Indices {
    ghost use Rattle.rel_core.specs.Shown.{field_relation, live_relation, class_relation, slot_relation, IsFirst};
    ghost use Rattle.heap_core.specs.Start.{method_of};
    ghost use Rattle.taco_unit.specs.declared.unit.MethodDef.{MethodDef};

    /// The relation of a field, at the field's index. Takes constant time and no memory.
    pub fn field(&self, field: u8) -> RelVar
        ensures { result ≡ field_relation self.now field }
    {
        let index = self.heap.get(usize::from(field)).copied().unwrap_or(0);
        RelVar {
            what: What::Field(field),
            index,
        }
    }

    /// The relation of a program variable, at the index that is listed first for it. Linear in the
    /// variables that are listed. Takes no memory.
    pub fn slot(&self, variable: u16) -> RelVar
        ensures { result ≡ slot_relation self.now variable }
    {
        RelVar {
            what: What::Slot(variable),
            index: slot_index(self.slots.as_slice(), variable),
        }
    }

    /// The relation that says which objects are there. Takes constant time and no memory.
    pub fn live(&self) -> RelVar
        ensures { result ≡ live_relation self.now }
    {
        RelVar {
            what: What::Live,
            index: self.live,
        }
    }

    /// The relation that says of which class each object is. Takes constant time and no memory.
    pub fn class(&self) -> RelVar
        ensures { result ≡ class_relation self.now }
    {
        RelVar {
            what: What::ClassOf,
            index: self.live,
        }
    }

    /// Index 0 for everything: each field of the unit, each parameter of the method, and the variable
    /// behind the parameters, which has the receiver. The result is variable 0, and so none of its own.
    /// Linear in the fields and parameters.
    pub fn first(alloc: Global, problem: &Problem) -> Result<Indices, NoMemory>
        ensures first { IfOk result (λ at. IsFirst at) }
        ensures fields { IfOk result (λ at. length at.heap ≡ length problem.now.unit.fields) }
        ensures variables { IfOk result (λ at. (d : MethodDef) → method_of problem.now ≡ Some d → map (λ s. s.0) at.slots ≡ numbers_below (length d.params + 1)) }
        ensures result { IfOk result (λ at. at.result ≡ 0) }
    {
        let heap = first_fields(alloc, problem.unit.fields.len())?;
        let slots = first_slots(alloc, method_in(problem).params.len() as u16 + 1)?;
        Ok(Indices {
            heap,
            live: 0,
            slots,
            result: 0,
        })
    }

    /// The same indices once more. Linear in them.
    pub fn copy(&self, alloc: Global) -> Result<Indices, NoMemory>
        ensures { IfOk result (λ at. at ≡ self.now) }
    {
        let heap = Items::from_slice(alloc, self.heap.as_slice())?;
        let slots = Items::from_slice(alloc, self.slots.as_slice())?;
        Ok(Indices {
            heap,
            live: self.live,
            slots,
            result: self.result,
        })
    }
}
