ghost use Rattle.std.specs.Prelude.{◌≡◌, [], IfOk};
ghost use Rattle.declared_names.specs.Lookups.{declared_slot as declared_slot_lem};
ghost use Rattle.declared_names.specs.Seen.{told, on, Stands, is_seen};
ghost use Rattle.typed_forms.specs.Calls.{named_place as named_place_lem, object_field as object_field_lem, own_field as own_field_lem, place_value, read_place as read_place_lem, named_value};

use crate::typed::{Place, Spot, Typed, byte, make_typed, typed_place};
use declared_names::{
    Cause, Declared, Fault, Here, Slot, Sort, World, declared_slot, field_slot, local_slot,
};
use java_tree::Ident;
use no_memory::NoMemory;
use sqlite_items::Boxed;
use std::alloc::Global;
use taco_unit::Expr;

/// The field of an object.
#[tactic(auto, unfolding(declared_names::specs::Seen::told, declared_names::specs::Faults::least))]
fn object_field(
    at: u32,
    name: &Ident,
    object: Boxed<Expr>,
    slot: Option<Slot>,
) -> Result<Place, Fault>
    ensures { result ≡ told (object_field_lem at name.now object slot) }
{
    match slot {
        Some(slot) => Ok(Place {
            at,
            sort: slot.sort,
            spot: Spot::Field(object, byte(slot.number)),
        }),
        None => Err(Fault {
            at: name.at,
            cause: Cause::Unknown,
        }),
    }
}

/// The field of `this`, where there is a receiver.
#[tactic(auto, unfolding(declared_names::specs::Seen::told, declared_names::specs::Faults::least))]
fn own_field(
    alloc: Global,
    world: &World<'_>,
    here: &Here<'_>,
    at: u32,
    name: &Ident,
) -> Result<Result<Place, Fault>, NoMemory>
    ensures { IfOk result (λ r. r ≡ told (own_field_lem world.now here.now at name.now here.now.fixed)) }
{
    if here.fixed {
        return Ok(Err(Fault {
            at: name.at,
            cause: Cause::Unknown,
        }));
    }
    let this = Boxed::new(alloc, Expr::This)?;
    let slot = field_slot(world, here.class, name.text.bytes());
    Ok(object_field(at, name, this, slot))
}

/// What a name means that is no quantified variable: a parameter or a local in scope, or a field of `this`.
#[tactic(auto, unfolding(declared_names::specs::Seen::told, declared_names::specs::Faults::least))]
pub fn named_place(
    alloc: Global,
    world: &World<'_>,
    here: &Here<'_>,
    held: &[Declared],
    at: u32,
    name: &Ident,
) -> Result<Result<Place, Fault>, NoMemory>
    ensures { IfOk result (λ r. r ≡ told (named_place_lem world.now here.now held.now at name.now)) }
{
    match local_slot(here, held, name.text.bytes()) {
        Some(slot) => Ok(Ok(Place {
            at,
            sort: slot.sort,
            spot: Spot::Local(byte(slot.number)),
        })),
        None => own_field(alloc, world, here, at, name),
    }
}

/// Whether a name means a parameter, a local or a field of `this`.
pub fn is_value(world: &World<'_>, here: &Here<'_>, held: &[Declared], name: &Ident) -> bool
    ensures { result ≡ is_seen (named_place_lem world.now here.now held.now 0 name.now) }
{
    let local = local_slot(here, held, name.text.bytes());
    match local {
        Some(_) => true,
        None => {
            if here.fixed {
                return false;
            }
            match field_slot(world, here.class, name.text.bytes()) {
                Some(_) => true,
                None => false,
            }
        }
    }
}

/// A field of what was read before the dot.
#[tactic(auto, unfolding(declared_names::specs::Seen::told, declared_names::specs::Faults::least))]
fn read(world: &World<'_>, at: u32, name: &Ident, object: Typed) -> Result<Place, Fault>
    ensures { result ≡ told (read_place_lem world.now at name.now object) }
{
    let Typed { at: _, sort, expr } = object;
    match sort {
        Sort::Loose => Ok(Place {
            at,
            sort: Sort::Loose,
            spot: Spot::Field(expr, 0),
        }),
        Sort::Object(owner) => {
            let slot = field_slot(world, owner, name.text.bytes());
            object_field(at, name, expr, slot)
        }
        Sort::Null => Err(Fault {
            at: name.at,
            cause: Cause::Kinds,
        }),
        Sort::Int => Err(Fault {
            at: name.at,
            cause: Cause::Kinds,
        }),
        Sort::Flag => Err(Fault {
            at: name.at,
            cause: Cause::Kinds,
        }),
    }
}

/// The same, where what stands before the dot may have faults.
pub fn read_place(
    world: &World<'_>,
    at: u32,
    name: &Ident,
    object: Result<Typed, Fault>,
) -> Result<Place, Fault>
    ensures { result ≡ on object (λ x. told (read_place_lem world.now at name.now x)) }
{
    match object {
        Ok(object) => read(world, at, name, object),
        Err(fault) => Err(fault),
    }
}

/// The value at a place, which may have faults.
#[tactic(auto, unfolding(declared_names::specs::Seen::told))]
pub fn place_to_value(
    alloc: Global,
    place: Result<Place, Fault>,
) -> Result<Result<Typed, Fault>, NoMemory>
    ensures { IfOk result (λ r. r ≡ on place (λ p. told (Stands (place_value p)))) }
{
    match place {
        Ok(place) => typed_place(alloc, place),
        Err(fault) => Ok(Err(fault)),
    }
}

/// The value that a name means in code.
pub fn named_value_in_code(
    alloc: Global,
    world: &World<'_>,
    here: &Here<'_>,
    held: &[Declared],
    at: u32,
    name: &Ident,
) -> Result<Result<Typed, Fault>, NoMemory>
    ensures { IfOk result (λ r. r ≡ on (told (named_place_lem world.now here.now held.now at name.now)) (λ p. told (Stands (place_value p)))) }
{
    let place = named_place(alloc, world, here, held, at, name)?;
    place_to_value(alloc, place)
}

/// The value that a name means in a clause: a quantified variable, or else a parameter or a field.
#[tactic(auto, using(declared_names::proofs::Told::wholes), unfolding(declared_names::specs::Seen::told))]
pub fn named_value_in_clause(
    alloc: Global,
    world: &World<'_>,
    here: &Here<'_>,
    bound: &[Declared],
    at: u32,
    name: &Ident,
) -> Result<Result<Typed, Fault>, NoMemory>
    ensures { let slot = declared_slot_lem bound.now name.now.text in IfOk result (λ r. r ≡ told (named_value at slot (named_place_lem world.now here.now [] at name.now))) }
{
    match declared_slot(bound, name.text.bytes()) {
        Some(slot) => make_typed(alloc, at, slot.sort, Expr::Bound(byte(slot.number))),
        None => named_value_in_code(alloc, world, here, &[], at, name),
    }
}
