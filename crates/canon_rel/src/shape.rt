//! The shape of a start: which objects are there, and one value at each root and each class-kind field.

ghost use Rattle.std.specs.Prelude.{◌≡◌, ◌<◌, ◌≤◌, nat_lt, slice_get, Some, true, false, IfOk, IsTrue, length};
ghost use Rattle.std.specs.List.{list_all};
ghost use Rattle.std.specs.Option.{option_map_or};
ghost use Rattle.heap_core.specs.Posed.{Posed};
ghost use Rattle.heap_core.specs.Start.{method_of};
ghost use Rattle.rel_core.specs.Reading.{Reading, numbers_below};
ghost use Rattle.rel_core.specs.Meaning.{holds};
ghost use Rattle.rel_core.specs.Uses.{Kinds, GivesStart, is_sorted};
ghost use Rattle.canon_rel.specs.Shape.{is_next as is_next_lem, field_fits as field_fits_lem, fields_fit as fields_fit_lem, has_shape as has_shape_lem};
ghost use Rattle.canon_rel.specs.Shape.{argument_fits as argument_fits_lem, arguments_fit as arguments_fit_lem, receiver_fits as receiver_fits_lem, roots_fit as roots_fit_lem};

use crate::objects::is_next;
use crate::places::Place;
use crate::problems::{field_count, field_of, object_count, param_at};
use crate::values::{is_declared_value, is_one_object, is_one_value};
use heap_core::{Problem, method_in};
use no_memory::NoMemory;
use rel_core::{Formula, Indices};
use sqlite_items::{Boxed, Items};
use std::alloc::Global;
use taco_unit::{FieldDef, Kind, MethodDef, ParamDef};

/// Each object is there only where the one before it is.
fn is_prefix(alloc: Global, problem: &Problem, at: &Indices) -> Result<Boxed<Formula>, NoMemory>
    ensures meaning { IfOk result (λ f. (m : Reading) → m.objects ≡ problem.now.scope.objects → holds f m ≡ list_all (is_next_lem at.now m) (numbers_below problem.now.scope.objects)) }
    ensures sorted { IfOk result (λ f. (kinds : Kinds) → IsTrue (is_sorted problem.now kinds f)) }
{
    let count = object_count(problem);
    let mut parts = Items::new(alloc);
    for object in 0..count {
        let part = is_next(alloc, at, object)?;
        parts.push(part.into_inner())?;
    }
    let all = Formula::all(alloc, parts)?;
    Ok(all)
}

/// The field, if it is of class kind, has one value at the object where it is there and of the field's
/// class, and else nothing.
fn field_fits(
    alloc: Global,
    at: &Indices,
    object: u8,
    field: u8,
    def: &FieldDef,
) -> Result<Boxed<Formula>, NoMemory>
    ensures meaning { IfOk result (λ f. (m : Reading) → object < m.objects → holds f m ≡ field_fits_lem at.now m object field def.now) }
    ensures sorted { IfOk result (λ f. (p : Posed) (kinds : Kinds) → IsTrue (nat_lt object p.scope.objects) → slice_get p.unit.fields field ≡ Some def.now → IsTrue (is_sorted p kinds f)) }
{
    match def.kind {
        Kind::Ref(class) => {
            let place = Place::Field(at.field(field), object);
            let fits = is_declared_value(alloc, at, object, def.class, place, class)?;
            Ok(fits)
        }
        _ => {
            let always = Formula::constant(alloc, true)?;
            Ok(always)
        }
    }
}

/// So do all fields.
fn fields_fit(
    alloc: Global,
    problem: &Problem,
    at: &Indices,
    object: u8,
) -> Result<Boxed<Formula>, NoMemory>
    ensures meaning { IfOk result (λ f. (m : Reading) → object < m.objects → holds f m ≡ fields_fit_lem problem.now at.now m object) }
    ensures sorted { IfOk result (λ f. (kinds : Kinds) → IsTrue (nat_lt object problem.now.scope.objects) → IsTrue (is_sorted problem.now kinds f)) }
{
    let count = field_count(problem);
    let mut parts = Items::new(alloc);
    for field in 0..count {
        let part = field_fits(alloc, at, object, field as u8, field_of(problem, field))?;
        parts.push(part.into_inner())?;
    }
    let all = Formula::all(alloc, parts)?;
    Ok(all)
}

/// So they do at all objects.
fn all_fields_fit(
    alloc: Global,
    problem: &Problem,
    at: &Indices,
) -> Result<Boxed<Formula>, NoMemory>
    ensures meaning { IfOk result (λ f. (m : Reading) → m.objects ≡ problem.now.scope.objects → holds f m ≡ list_all (fields_fit_lem problem.now at.now m) (numbers_below problem.now.scope.objects)) }
    ensures sorted { IfOk result (λ f. (kinds : Kinds) → IsTrue (is_sorted problem.now kinds f)) }
{
    let count = object_count(problem);
    let mut parts = Items::new(alloc);
    for object in 0..count {
        let part = fields_fit(alloc, problem, at, object)?;
        parts.push(part.into_inner())?;
    }
    let all = Formula::all(alloc, parts)?;
    Ok(all)
}

/// The parameter, if it is of class kind, has one value.
fn argument_fits(
    alloc: Global,
    at: &Indices,
    variable: u16,
    param: &ParamDef,
) -> Result<Boxed<Formula>, NoMemory>
    ensures meaning { IfOk result (λ f. (m : Reading) → holds f m ≡ argument_fits_lem at.now m variable param.now) }
    ensures sorted { IfOk result (λ f. (p : Posed) (kinds : Kinds) → kinds variable ≡ Some param.now.kind → IsTrue (is_sorted p kinds f)) }
{
    match param.kind {
        Kind::Ref(class) => {
            let place = Place::Variable(at.slot(variable));
            let fits = is_one_value(alloc, at, place, class)?;
            Ok(fits)
        }
        _ => {
            let always = Formula::constant(alloc, true)?;
            Ok(always)
        }
    }
}

/// The receiver, if there is one, is an object of the method's class.
fn receiver_fits(
    alloc: Global,
    at: &Indices,
    method: &MethodDef,
) -> Result<Boxed<Formula>, NoMemory>
    requires { length method.now.params ≤ 8 }
    ensures meaning { IfOk result (λ f. (m : Reading) → holds f m ≡ receiver_fits_lem at.now m method.now) }
    ensures sorted { IfOk result (λ f. (p : Posed) (kinds : Kinds) → method_of p ≡ Some method.now → GivesStart p kinds → IsTrue (is_sorted p kinds f)) }
{
    if method.fixed {
        let always = Formula::constant(alloc, true)?;
        return Ok(always);
    }
    let place = Place::Variable(at.slot(method.params.len() as u16));
    let fits = is_one_object(alloc, at, place, method.class)?;
    Ok(fits)
}

/// The parameters of class kind have one value each.
fn arguments_fit(
    alloc: Global,
    at: &Indices,
    method: &MethodDef,
) -> Result<Boxed<Formula>, NoMemory>
    requires { length method.now.params ≤ 8 }
    ensures meaning { IfOk result (λ f. (m : Reading) → holds f m ≡ arguments_fit_lem at.now m method.now) }
    ensures sorted { IfOk result (λ f. (p : Posed) (kinds : Kinds) → method_of p ≡ Some method.now → GivesStart p kinds → IsTrue (is_sorted p kinds f)) }
{
    let count = method.params.len();
    let mut parts = Items::new(alloc);
    for variable in 0..count {
        let part = argument_fits(alloc, at, variable as u16, param_at(method, variable))?;
        parts.push(part.into_inner())?;
    }
    let all = Formula::all(alloc, parts)?;
    Ok(all)
}

/// The receiver and the arguments have their values.
fn roots_fit(alloc: Global, problem: &Problem, at: &Indices) -> Result<Boxed<Formula>, NoMemory>
    ensures meaning { IfOk result (λ f. (m : Reading) → holds f m ≡ option_map_or (roots_fit_lem at.now m) (method_of problem.now) false) }
    ensures sorted { IfOk result (λ f. (kinds : Kinds) → GivesStart problem.now kinds → IsTrue (is_sorted problem.now kinds f)) }
{
    let method = method_in(problem);
    let receiver = receiver_fits(alloc, at, method)?;
    let arguments = arguments_fit(alloc, at, method)?;
    let both = Formula::both(alloc, receiver, arguments)?;
    Ok(both)
}

/// The valuation has the shape of a start.
pub(crate) fn has_shape(
    alloc: Global,
    problem: &Problem,
    at: &Indices,
) -> Result<Boxed<Formula>, NoMemory>
    ensures meaning { IfOk result (λ f. (m : Reading) → m.objects ≡ problem.now.scope.objects → holds f m ≡ has_shape_lem problem.now at.now m) }
    ensures sorted { IfOk result (λ f. (kinds : Kinds) → GivesStart problem.now kinds → IsTrue (is_sorted problem.now kinds f)) }
{
    let prefix = is_prefix(alloc, problem, at)?;
    let fields = all_fields_fit(alloc, problem, at)?;
    let heap = Formula::both(alloc, prefix, fields)?;
    let roots = roots_fit(alloc, problem, at)?;
    let shape = Formula::both(alloc, heap, roots)?;
    Ok(shape)
}
