ghost use Rattle.std.specs.Prelude.{◌≡◌, Ok, IfOk};
ghost use Rattle.typed_forms.specs.Calls.{byte as byte_lem, place_value};
ghost use Rattle.typed_forms.specs.Clauses.{this_of};
ghost use Rattle.typed_forms.specs.Operators.{typed as typed_lem};
ghost use Rattle.declared_names.specs.Seen.{Stands, on, told};

use declared_names::{Cause, Fault, Here, Sort};
use no_memory::NoMemory;
use sqlite_items::{Boxed, Items};
use std::alloc::Global;
use taco_unit::{Call, Expr};

/// An expression without a fault: the place of its first token, its kind, and what it is in the unit.
#[derive(Drop)]
pub struct Typed {
    pub at: u32,
    pub sort: Sort,
    pub expr: Boxed<Expr>,
}

/// A local, or a field of an object.
#[derive(Drop)]
pub enum Spot {
    Local(u8),
    Field(Boxed<Expr>, u8),
}

/// What a value can be assigned to.
#[derive(Drop)]
pub struct Place {
    pub at: u32,
    pub sort: Sort,
    pub spot: Spot,
}

/// A call; without a result it is no value.
#[derive(Drop)]
pub struct Called {
    pub at: u32,
    pub result: Option<Sort>,
    pub call: Call,
}

/// Where an argument stands, and of which kind it is.
#[derive(Clone, Copy, Debug, PartialEq, Eq)]
pub struct Given {
    pub at: u32,
    pub sort: Sort,
}

/// Arguments, from left to right.
#[derive(Drop)]
pub struct Arguments {
    pub given: Items<Given>,
    pub exprs: Items<Expr>,
}

/// The number as a byte. One above 255 is beyond a limit, which is a fault elsewhere, and gives 255.
pub fn byte(number: usize) -> u8
    ensures { result ≡ byte_lem number }
{
    number.min(255) as u8
}

/// An expression of this kind.
pub fn make_typed(
    alloc: Global,
    at: u32,
    sort: Sort,
    expr: Expr,
) -> Result<Result<Typed, Fault>, NoMemory>
    ensures { IfOk result (λ r. r ≡ Ok (typed_lem at sort expr)) }
{
    let expr = Boxed::new(alloc, expr)?;
    Ok(Ok(Typed { at, sort, expr }))
}

/// The value that stands at a place.
pub fn typed_place(alloc: Global, place: Place) -> Result<Result<Typed, Fault>, NoMemory>
    ensures { IfOk result (λ r. r ≡ Ok (place_value place)) }
{
    let Place { at, sort, spot } = place;
    match spot {
        Spot::Local(number) => make_typed(alloc, at, sort, Expr::Local(number)),
        Spot::Field(object, field) => make_typed(alloc, at, sort, Expr::Read(object, field)),
    }
}

/// `this`, where there is a receiver.
#[tactic(auto, unfolding(declared_names::specs::Seen::told, declared_names::specs::Faults::least))]
pub fn this_value(alloc: Global, at: u32, here: &Here<'_>) -> Result<Result<Typed, Fault>, NoMemory>
    ensures { IfOk result (λ r. r ≡ told (this_of at here.now.class here.now.fixed)) }
{
    if here.fixed {
        Ok(Err(Fault {
            at,
            cause: Cause::Kinds,
        }))
    } else {
        make_typed(alloc, at, Sort::Object(here.class), Expr::This)
    }
}

/// A value in brackets, which may have faults: it begins at the bracket.
#[tactic(auto, unfolding(declared_names::specs::Seen::told))]
pub fn within(at: u32, value: Result<Typed, Fault>) -> Result<Typed, Fault>
    ensures { result ≡ on value (λ x. told (Stands (typed_lem at x.sort x.expr))) }
{
    match value {
        Ok(value) => Ok(Typed {
            at,
            sort: value.sort,
            expr: value.expr,
        }),
        Err(fault) => Err(fault),
    }
}
