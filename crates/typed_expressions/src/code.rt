ghost use Rattle.std.specs.Prelude.{◌≡◌, option_map, IfOk};
ghost use Rattle.java_tree.specs.Seen.{java_tree, java_trees};
ghost use Rattle.declared_names.specs.Faults.{fault};
ghost use Rattle.declared_names.specs.declared.fault.Cause.TheVariants.{Kinds};
ghost use Rattle.typed_forms.specs.Calls.{no_arguments};
ghost use Rattle.typed_forms.specs.Operators.{minus_of, operated, negated};
ghost use Rattle.declared_names.specs.Seen.{told, on, on_two, Stands};
ghost use Rattle.typed_expressions.specs.Expressions.{bare_name as bare_name_lem, class_name_of, dotted_told, seen, seen_call, seen_from, seen_target};
ghost use Rattle.declared_names.specs.Lookups.{in_body};

use crate::literals::{bare_name, java_literal};
use declared_names::{Cause, Declared, Fault, Here, Sort, World};
use java_tree::{Ident, JavaNode, JavaTree};
use no_memory::NoMemory;
use sqlite_items::Items;
use std::alloc::Global;
use taco_unit::Expr;
use typed_forms::{
    Arguments, Called, Place, Typed, call_to_value, class_called, class_of, is_value, literal,
    make, make_typed, minus, named_place, named_value_in_code, negated_value, object_called,
    operated_values, own_called, place_to_value, read_place, this_value, with_argument, within,
};

/// The name of a class before a dot, where it means nothing else.
fn class_name<'t>(
    world: &World<'_>,
    here: &Here<'_>,
    held: &[Declared],
    target: &'t JavaTree,
) -> Option<&'t Ident>
    ensures { option_map (λ i. i.now) result ≡ class_name_of (in_body world.now here.now held.now) (bare_name_lem (java_tree target.now)) }
{
    match bare_name(target) {
        None => None,
        Some(name) => {
            if is_value(world, here, held, name) {
                None
            } else {
                Some(name)
            }
        }
    }
}

/// An expression of code, with these locals in scope: its kind and its value, or its fault.
///
/// It goes once over the expression; a name costs a look-up among what is declared.
#[cycle(code)]
#[tactic(auto, using(crate::proofs::Arms::java_arms))]
pub fn java(
    alloc: Global,
    world: &World<'_>,
    here: &Here<'_>,
    held: &[Declared],
    tree: &JavaTree,
) -> Result<Result<Typed, Fault>, NoMemory>
    ensures { IfOk result (λ r. r ≡ told (seen (java_tree tree.now) (in_body world.now here.now held.now))) }
{
    match &tree.node {
        JavaNode::Num(n) => make_typed(alloc, tree.at, Sort::Int, Expr::Num(literal(*n))),
        JavaNode::Flag(flag) => make_typed(alloc, tree.at, Sort::Flag, Expr::Flag(*flag)),
        JavaNode::Null => make_typed(alloc, tree.at, Sort::Null, Expr::Null),
        JavaNode::This => this_value(alloc, tree.at, here),
        JavaNode::New(name) => make(alloc, tree.at, class_of(world, name)),
        JavaNode::Named(name) => named_value_in_code(alloc, world, here, held, tree.at, name),
        JavaNode::Call(name, args) => {
            let args = arguments(alloc, world, here, held, args.as_slice())?;
            let call = own_called(alloc, world, here, tree.at, name, args)?;
            call_to_value(alloc, call)
        }
        JavaNode::Read(a, name) => {
            let a = java(alloc, world, here, held, a)?;
            place_to_value(alloc, read_place(world, tree.at, name, a))
        }
        JavaNode::CallOn(a, name, args) => {
            let owner = class_name(world, here, held, a);
            let object = java(alloc, world, here, held, a)?;
            let args = arguments(alloc, world, here, held, args.as_slice())?;
            call_to_value(
                alloc,
                dotted(alloc, world, tree.at, name, owner, object, args),
            )
        }
        JavaNode::Paren(a) => {
            let a = java(alloc, world, here, held, a)?;
            Ok(within(tree.at, a))
        }
        JavaNode::Not(a) => {
            let a = java(alloc, world, here, held, a)?;
            negated_value(alloc, tree.at, a)
        }
        JavaNode::Neg(a) => {
            let value = java(alloc, world, here, held, a)?;
            minus(alloc, tree.at, java_literal(a), value)
        }
        JavaNode::Bin(sign, a, b) => {
            let a = java(alloc, world, here, held, a)?;
            let b = java(alloc, world, here, held, b)?;
            operated_values(alloc, tree.at, false, *sign, a, b)
        }
    }
}

/// Arguments, from left to right.
#[cycle(code)]
#[tactic(auto, using(crate::proofs::Arms::java_arms))]
fn arguments(
    alloc: Global,
    world: &World<'_>,
    here: &Here<'_>,
    held: &[Declared],
    args: &[JavaTree],
) -> Result<Result<Arguments, Fault>, NoMemory>
    ensures { IfOk result (λ r. r ≡ told (seen_from (Stands no_arguments) (java_trees args.now) (in_body world.now here.now held.now))) }
{
    let mut done = Ok(Arguments {
        given: Items::new(alloc),
        exprs: Items::new(alloc),
    });
    for arg in args {
        let value = java(alloc, world, here, held, arg)?;
        done = with_argument(done, value)?;
    }
    Ok(done)
}

/// A call behind a dot, of what may have faults: of a static method of the class of this name, if there is one, and
/// else of a method of the object.
fn dotted(
    alloc: Global,
    world: &World<'_>,
    at: u32,
    name: &Ident,
    owner: Option<&Ident>,
    object: Result<Typed, Fault>,
    args: Result<Arguments, Fault>,
) -> Result<Called, Fault>
    ensures { result ≡ dotted_told world.now at name.now (option_map (λ i. i.now) owner.entry) object args }
{
    match owner {
        Some(owner) => class_called(world, at, name, class_of(world, owner), args),
        None => object_called(alloc, world, at, name, object, args),
    }
}

/// A call that stands as a statement, so that it may give no value.
#[tactic(auto, using(crate::proofs::Arms::java_arms))]
pub fn call(
    alloc: Global,
    world: &World<'_>,
    here: &Here<'_>,
    held: &[Declared],
    tree: &JavaTree,
) -> Result<Result<Called, Fault>, NoMemory>
    ensures { IfOk result (λ r. r ≡ told (seen_call (java_tree tree.now) (in_body world.now here.now held.now))) }
{
    match &tree.node {
        JavaNode::Call(name, args) => {
            let args = arguments(alloc, world, here, held, args.as_slice())?;
            own_called(alloc, world, here, tree.at, name, args)
        }
        JavaNode::CallOn(a, name, args) => {
            let owner = class_name(world, here, held, a);
            let object = java(alloc, world, here, held, a)?;
            let args = arguments(alloc, world, here, held, args.as_slice())?;
            Ok(dotted(alloc, world, tree.at, name, owner, object, args))
        }
        JavaNode::Num(_) => Ok(Err(no_statement(tree.at))),
        JavaNode::Flag(_) => Ok(Err(no_statement(tree.at))),
        JavaNode::Null => Ok(Err(no_statement(tree.at))),
        JavaNode::This => Ok(Err(no_statement(tree.at))),
        JavaNode::New(_) => Ok(Err(no_statement(tree.at))),
        JavaNode::Named(_) => Ok(Err(no_statement(tree.at))),
        JavaNode::Read(_, _) => Ok(Err(no_statement(tree.at))),
        JavaNode::Paren(_) => Ok(Err(no_statement(tree.at))),
        JavaNode::Not(_) => Ok(Err(no_statement(tree.at))),
        JavaNode::Neg(_) => Ok(Err(no_statement(tree.at))),
        JavaNode::Bin(_, _, _) => Ok(Err(no_statement(tree.at))),
    }
}

/// The fault of an expression that is neither a call nor a place, which no text has there.
fn no_statement(at: u32) -> Fault
    ensures { result ≡ fault at Kinds }
{
    Fault {
        at,
        cause: Cause::Kinds,
    }
}

/// What a value is assigned to.
#[tactic(auto, using(crate::proofs::Arms::java_arms))]
pub fn target(
    alloc: Global,
    world: &World<'_>,
    here: &Here<'_>,
    held: &[Declared],
    tree: &JavaTree,
) -> Result<Result<Place, Fault>, NoMemory>
    ensures { IfOk result (λ r. r ≡ told (seen_target (java_tree tree.now) (in_body world.now here.now held.now))) }
{
    match &tree.node {
        JavaNode::Named(name) => named_place(alloc, world, here, held, tree.at, name),
        JavaNode::Read(a, name) => {
            let a = java(alloc, world, here, held, a)?;
            Ok(read_place(world, tree.at, name, a))
        }
        JavaNode::Num(_) => Ok(Err(no_statement(tree.at))),
        JavaNode::Flag(_) => Ok(Err(no_statement(tree.at))),
        JavaNode::Null => Ok(Err(no_statement(tree.at))),
        JavaNode::This => Ok(Err(no_statement(tree.at))),
        JavaNode::New(_) => Ok(Err(no_statement(tree.at))),
        JavaNode::Call(_, _) => Ok(Err(no_statement(tree.at))),
        JavaNode::CallOn(_, _, _) => Ok(Err(no_statement(tree.at))),
        JavaNode::Paren(_) => Ok(Err(no_statement(tree.at))),
        JavaNode::Not(_) => Ok(Err(no_statement(tree.at))),
        JavaNode::Neg(_) => Ok(Err(no_statement(tree.at))),
        JavaNode::Bin(_, _, _) => Ok(Err(no_statement(tree.at))),
    }
}
