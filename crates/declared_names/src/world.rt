ghost use Rattle.std.specs.Prelude.{◌≡◌, option_map, is_none};
ghost use Rattle.declared_names.specs.Lookups.{declared_slot as declared_slot_lem, field_slot as field_slot_lem, is_declared as is_declared_lem, local_slot as local_slot_lem, param_slot as param_slot_lem, place_in, method_of};
ghost use Rattle.std.specs.Prelude.{position};

use crate::names::Names;
use crate::sort::Sort;
use java_tree::Ident;
use sqlite_items::Items;
use taco_unit::Name;

/// A field, by what its declaration says.
#[derive(Drop)]
pub struct FieldKnown {
    pub name: Name,
    /// The number of its class.
    pub class: usize,
    pub sort: Sort,
    pub nullable: bool,
}

/// A parameter, by what its declaration says.
#[derive(Drop)]
pub struct ParamKnown {
    pub name: Name,
    pub sort: Sort,
    pub nullable: bool,
}

/// What a method gives.
#[derive(Clone, Copy, Debug, PartialEq, Eq)]
pub struct ResultKnown {
    pub sort: Sort,
    pub nullable: bool,
}

/// A method, by what its head says.
#[derive(Drop)]
pub struct MethodKnown {
    pub name: Name,
    /// The number of its class.
    pub class: usize,
    /// It is static.
    pub fixed: bool,
    pub params: Items<ParamKnown>,
    /// `None` for `void`.
    pub result: Option<ResultKnown>,
}

/// All that is declared in the classes of a text: fields and methods with their names, in text order.
#[derive(Drop)]
pub struct World<'t> {
    pub classes: Names<'t>,
    pub field_names: Names<'t>,
    pub fields: Items<FieldKnown>,
    pub method_names: Names<'t>,
    pub methods: Items<MethodKnown>,
}

/// The class and the method that an expression stands in. An invariant stands in a method without parameters.
#[derive(Drop)]
pub struct Here<'t> {
    /// The number of the class.
    pub class: usize,
    /// The method is static, so that there is no receiver.
    pub fixed: bool,
    pub params: Names<'t>,
    /// The kinds of the parameters.
    pub sorts: Items<Sort>,
    /// The kind of the result, if there is one.
    pub result: Option<Sort>,
}

/// A local in scope with its number behind the parameters, or a quantified variable with the number of quantifiers
/// around its own.
#[derive(Drop)]
pub struct Declared {
    pub name: Name,
    pub sort: Sort,
    pub number: usize,
}

/// In what an expression stands.
#[derive(Clone, Copy, Debug, PartialEq, Eq)]
pub enum Form {
    /// The code of a method.
    Code,
    /// An invariant, or a `requires` clause.
    Entry,
    /// An `ensures` clause.
    Exit,
    /// Inside `\old`.
    Past,
}

/// A field or a variable that a name means.
#[derive(Clone, Copy, Debug, PartialEq, Eq)]
pub struct Slot {
    pub number: usize,
    pub sort: Sort,
}

/// The place of the class of this name.
pub fn class_place(world: &World<'_>, name: &Ident) -> Option<usize>
    ensures { result ≡ place_in world.now.classes 0 name.now.text }
{
    world.classes.place(0, name.text.bytes())
}

/// The field of this name of a class.
pub fn field_slot(world: &World<'_>, owner: usize, name: &[u8]) -> Option<Slot>
    ensures { result ≡ field_slot_lem world.now owner name.now }
{
    match world.field_names.place(owner, name) {
        None => None,
        Some(number) => match world.fields.get(number) {
            None => None,
            Some(field) => Some(Slot {
                number,
                sort: field.sort,
            }),
        },
    }
}

/// The parameter of this name.
fn param_slot(here: &Here<'_>, name: &[u8]) -> Option<Slot>
    ensures { result ≡ param_slot_lem here.now name.now }
{
    match here.params.place(0, name) {
        None => None,
        Some(number) => match here.sorts.get(number) {
            None => None,
            Some(sort) => Some(Slot {
                number,
                sort: *sort,
            }),
        },
    }
}

impl Declared {
    ghost use Rattle.declared_names.specs.Lookups.{is_declared};

    fn is_named(&self, name: &[u8]) -> bool
        ensures { result ≡ is_declared name.now self.now }
    {
        self.name.bytes() == name
    }
}

fn declared_place(declared: &[Declared], name: &[u8]) -> Option<usize>
    ensures { result ≡ position (is_declared_lem name.now) declared.now }
{
    declared.iter().position(|d| d.is_named(name))
}

/// The local or the quantified variable of this name.
pub fn declared_slot(declared: &[Declared], name: &[u8]) -> Option<Slot>
    ensures { result ≡ declared_slot_lem declared.now name.now }
{
    match declared_place(declared, name) {
        None => None,
        Some(place) => match declared.get(place) {
            None => None,
            Some(d) => Some(Slot {
                number: d.number,
                sort: d.sort,
            }),
        },
    }
}

/// The parameter or the local in scope of this name.
pub fn local_slot(here: &Here<'_>, held: &[Declared], name: &[u8]) -> Option<Slot>
    ensures { result ≡ local_slot_lem here.now held.now name.now }
{
    match param_slot(here, name) {
        Some(slot) => Some(slot),
        None => declared_slot(held, name),
    }
}

/// The method of this name of a class, and its number.
pub fn method_named<'w>(
    world: &'w World<'_>,
    owner: usize,
    name: &Ident,
) -> Option<(usize, &'w MethodKnown)>
    ensures { option_map (λ m. (m.0, m.1.now)) result ≡ method_of world.now owner name.now }
{
    match world.method_names.place(owner, name.text.bytes()) {
        None => None,
        Some(number) => match world.methods.get(number) {
            None => None,
            Some(method) => Some((number, method)),
        },
    }
}

/// Whether no parameter and no local in scope has this name.
pub fn is_fresh(here: &Here<'_>, held: &[Declared], name: &Ident) -> bool
    ensures { result ≡ is_none (local_slot_lem here.now held.now name.now.text) }
{
    local_slot(here, held, name.text.bytes()).is_none()
}
