ghost use Rattle.std.specs.Prelude.{◌≡◌, None, Some, false, length, option_map, IfOk};
ghost use Rattle.declared_names.specs.Faults.{soonest};
ghost use Rattle.declared_names.specs.Seen.{told, on, on_two, Stands};
ghost use Rattle.typed_forms.specs.Calls.{argument_faults as argument_faults_lem, call_to as call_to_lem, call_value, called as called_lem, class_call as class_call_lem, class_of as class_of_lem, made, method_call as method_call_lem, object_call as object_call_lem, own_call as own_call_lem, own_target as own_target_lem, passed as passed_lem, with_argument as with_argument_lem};
ghost use Rattle.declared_names.specs.Lookups.{method_of};

use crate::operators::wanted;
use crate::typed::{Arguments, Called, Given, Typed, byte, make_typed};
use declared_names::{
    Cause, Fault, Here, MethodKnown, ParamKnown, Sort, World, class_place, earlier, method_named,
    pair, unless,
};
use java_tree::Ident;
use no_memory::NoMemory;
use sqlite_items::{Boxed, Items};
use std::alloc::Global;
use taco_unit::{Call, Expr};

/// One argument more.
fn add_argument(mut arguments: Arguments, argument: Typed) -> Result<Arguments, NoMemory>
    ensures { IfOk result (λ r. r ≡ with_argument_lem arguments argument) }
{
    let Typed { at, sort, expr } = argument;
    arguments.given.push(Given { at, sort })?;
    arguments.exprs.push(expr.into_inner())?;
    Ok(arguments)
}

/// The same, where either may have faults.
#[tactic(auto, unfolding(declared_names::specs::Seen::told))]
pub fn with_argument(
    arguments: Result<Arguments, Fault>,
    argument: Result<Typed, Fault>,
) -> Result<Result<Arguments, Fault>, NoMemory>
    ensures { IfOk result (λ r. r ≡ on_two arguments argument (λ ts t. told (Stands (with_argument_lem ts t)))) }
{
    match pair(arguments, argument) {
        Ok((arguments, argument)) => {
            let more = add_argument(arguments, argument)?;
            Ok(Ok(more))
        }
        Err(fault) => Ok(Err(fault)),
    }
}

/// The fault of arguments that do not fit their parameters.
fn argument_fault(params: &[ParamKnown], given: &[Given]) -> Option<Fault>
    requires { length params.now ≡ length given.now }
    ensures { result ≡ soonest (argument_faults_lem params.now given.now) }
{
    let mut found = None;
    for (place, param) in params.iter().enumerate() {
        let argument = &given[place];
        found = earlier(found, wanted(param.sort, argument.at, argument.sort));
    }
    found
}

/// The fault of arguments that are more or fewer than the parameters, or do not fit them.
#[tactic(auto, using(declared_names::proofs::Told::told_leaves))]
fn passed(name: &Ident, params: &[ParamKnown], given: &[Given]) -> Option<Fault>
    ensures { result ≡ soonest (passed_lem name.now params.now given.now) }
{
    if params.len() == given.len() {
        argument_fault(params, given)
    } else {
        Some(Fault {
            at: name.at,
            cause: Cause::Kinds,
        })
    }
}

fn call_to(number: usize, target: Option<Boxed<Expr>>, exprs: Items<Expr>) -> Call
    ensures { result ≡ call_to_lem number target exprs }
{
    Call {
        method: byte(number),
        target,
        args: exprs,
    }
}

/// A call of a method.
fn called(
    at: u32,
    number: usize,
    method: &MethodKnown,
    target: Option<Boxed<Expr>>,
    arguments: Arguments,
) -> Called
    ensures { result ≡ called_lem at (number, method.now) target arguments }
{
    let Arguments { given: _, exprs } = arguments;
    Called {
        at,
        result: result_sort(method),
        call: call_to(number, target, exprs),
    }
}

/// The kind of what the method gives.
fn result_sort(method: &MethodKnown) -> Option<Sort>
    ensures { result ≡ option_map (λ r. r.sort) method.now.result }
{
    match method.result {
        Some(given) => Some(given.sort),
        None => None,
    }
}

/// `this` as the target of a method with a receiver.
fn own_target(alloc: Global, fixed: bool) -> Result<Option<Boxed<Expr>>, NoMemory>
    ensures { IfOk result (λ t. t ≡ own_target_lem fixed) }
{
    if fixed {
        return Ok(None);
    }
    let this = Boxed::new(alloc, Expr::This)?;
    Ok(Some(this))
}

/// A call of a method of the own class, by its name alone.
#[tactic(auto, using(declared_names::proofs::Told::told_leaves), unfolding(declared_names::specs::Seen::told, declared_names::specs::Faults::least))]
fn own_call(
    alloc: Global,
    world: &World<'_>,
    here: &Here<'_>,
    at: u32,
    name: &Ident,
    arguments: Arguments,
) -> Result<Result<Called, Fault>, NoMemory>
    ensures { IfOk result (λ r. r ≡ told (own_call_lem here.now at name.now arguments (method_of world.now here.now.class name.now))) }
{
    let Some((number, method)) = method_named(world, here.class, name) else {
        return Ok(Err(Fault {
            at: name.at,
            cause: Cause::Unknown,
        }));
    };
    let receiver = unless(method.fixed || !here.fixed, name.at, Cause::Kinds);
    let arity = passed(name, method.params.as_slice(), arguments.given.as_slice());
    match earlier(receiver, arity) {
        Some(fault) => Ok(Err(fault)),
        None => {
            let target = own_target(alloc, method.fixed)?;
            Ok(Ok(called(at, number, method, target, arguments)))
        }
    }
}

/// The same, where the arguments may have faults.
pub fn own_called(
    alloc: Global,
    world: &World<'_>,
    here: &Here<'_>,
    at: u32,
    name: &Ident,
    arguments: Result<Arguments, Fault>,
) -> Result<Result<Called, Fault>, NoMemory>
    ensures { IfOk result (λ r. r ≡ on arguments (λ ts. told (own_call_lem here.now at name.now ts (method_of world.now here.now.class name.now)))) }
{
    match arguments {
        Ok(arguments) => own_call(alloc, world, here, at, name, arguments),
        Err(fault) => Ok(Err(fault)),
    }
}

/// A call of a static method behind the name of its class.
#[tactic(auto, using(declared_names::proofs::Told::told_leaves), unfolding(declared_names::specs::Seen::told, declared_names::specs::Faults::least))]
fn class_call(
    world: &World<'_>,
    at: u32,
    name: &Ident,
    owner: usize,
    arguments: Arguments,
) -> Result<Called, Fault>
    ensures { result ≡ told (class_call_lem at name.now arguments (method_of world.now owner name.now)) }
{
    let Some((number, method)) = method_named(world, owner, name) else {
        return Err(Fault {
            at: name.at,
            cause: Cause::Unknown,
        });
    };
    let receiver = unless(method.fixed, name.at, Cause::Kinds);
    let arity = passed(name, method.params.as_slice(), arguments.given.as_slice());
    match earlier(receiver, arity) {
        Some(fault) => Err(fault),
        None => Ok(called(at, number, method, None, arguments)),
    }
}

/// The same, where the class or the arguments may have faults.
pub fn class_called(
    world: &World<'_>,
    at: u32,
    name: &Ident,
    owner: Result<usize, Fault>,
    arguments: Result<Arguments, Fault>,
) -> Result<Called, Fault>
    ensures { result ≡ on_two owner arguments (λ c ts. told (class_call_lem at name.now ts (method_of world.now c name.now))) }
{
    match pair(owner, arguments) {
        Ok((owner, arguments)) => class_call(world, at, name, owner, arguments),
        Err(fault) => Err(fault),
    }
}

/// A call of a method that is not static.
#[tactic(auto, using(declared_names::proofs::Told::told_leaves), unfolding(declared_names::specs::Seen::told, declared_names::specs::Faults::least))]
fn method_call(
    world: &World<'_>,
    at: u32,
    name: &Ident,
    owner: usize,
    object: Boxed<Expr>,
    arguments: Arguments,
) -> Result<Called, Fault>
    ensures { result ≡ told (method_call_lem at name.now object arguments (method_of world.now owner name.now)) }
{
    let Some((number, method)) = method_named(world, owner, name) else {
        return Err(Fault {
            at: name.at,
            cause: Cause::Unknown,
        });
    };
    let receiver = unless(!method.fixed, name.at, Cause::Kinds);
    let arity = passed(name, method.params.as_slice(), arguments.given.as_slice());
    match earlier(receiver, arity) {
        Some(fault) => Err(fault),
        None => Ok(called(at, number, method, Some(object), arguments)),
    }
}

/// A call of a method of what stands before the dot.
#[tactic(auto, using(declared_names::proofs::Told::told_leaves), unfolding(declared_names::specs::Seen::told, declared_names::specs::Faults::least))]
fn object_call(
    alloc: Global,
    world: &World<'_>,
    at: u32,
    name: &Ident,
    object: Typed,
    arguments: Arguments,
) -> Result<Called, Fault>
    ensures { result ≡ told (object_call_lem world.now at name.now object.expr arguments object.sort) }
{
    let Typed { at: _, sort, expr } = object;
    match sort {
        Sort::Loose => Ok(Called {
            at,
            result: Some(Sort::Loose),
            call: call_to(0, None, Items::new(alloc)),
        }),
        Sort::Object(owner) => method_call(world, at, name, owner, expr, arguments),
        Sort::Null => Err(Fault {
            at: name.at,
            cause: Cause::Kinds,
        }),
        Sort::Int => Err(Fault {
            at: name.at,
            cause: Cause::Kinds,
        }),
        Sort::Flag => Err(Fault {
            at: name.at,
            cause: Cause::Kinds,
        }),
    }
}

/// The same, where it or the arguments may have faults.
pub fn object_called(
    alloc: Global,
    world: &World<'_>,
    at: u32,
    name: &Ident,
    object: Result<Typed, Fault>,
    arguments: Result<Arguments, Fault>,
) -> Result<Called, Fault>
    ensures { result ≡ on_two object arguments (λ x ts. told (object_call_lem world.now at name.now x.expr ts x.sort)) }
{
    match pair(object, arguments) {
        Ok((object, arguments)) => object_call(alloc, world, at, name, object, arguments),
        Err(fault) => Err(fault),
    }
}

/// The value of a call; one without a result is none.
#[tactic(auto, unfolding(declared_names::specs::Seen::told, declared_names::specs::Faults::least))]
fn value_of(alloc: Global, call: Called) -> Result<Result<Typed, Fault>, NoMemory>
    ensures { IfOk result (λ r. r ≡ told (call_value call call.result)) }
{
    let Called {
        at,
        result: given,
        call,
    } = call;
    match given {
        Some(sort) => make_typed(alloc, at, sort, Expr::Call(call)),
        None => Ok(Err(Fault {
            at,
            cause: Cause::Kinds,
        })),
    }
}

/// The same, where the call may have faults.
pub fn call_to_value(
    alloc: Global,
    call: Result<Called, Fault>,
) -> Result<Result<Typed, Fault>, NoMemory>
    ensures { IfOk result (λ r. r ≡ on call (λ c. told (call_value c c.result))) }
{
    match call {
        Ok(call) => value_of(alloc, call),
        Err(fault) => Ok(Err(fault)),
    }
}

/// The class of this name.
#[tactic(auto, unfolding(declared_names::specs::Seen::told, declared_names::specs::Faults::least))]
pub fn class_of(world: &World<'_>, name: &Ident) -> Result<usize, Fault>
    ensures { result ≡ told (class_of_lem world.now name.now) }
{
    match class_place(world, name) {
        Some(owner) => Ok(owner),
        None => Err(Fault {
            at: name.at,
            cause: Cause::Unknown,
        }),
    }
}

/// A new object of the class, in code.
#[tactic(auto, using(declared_names::proofs::Told::told_leaves))]
pub fn make(
    alloc: Global,
    at: u32,
    owner: Result<usize, Fault>,
) -> Result<Result<Typed, Fault>, NoMemory>
    ensures { IfOk result (λ r. r ≡ on owner (λ c. told (made at false c))) }
{
    match owner {
        Ok(owner) => make_typed(alloc, at, Sort::Object(owner), Expr::New(byte(owner))),
        Err(fault) => Ok(Err(fault)),
    }
}
