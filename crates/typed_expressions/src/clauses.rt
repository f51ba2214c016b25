ghost use Rattle.std.specs.Prelude.{◌≡◌, IfOk};
ghost use Rattle.java_tree.specs.Seen.{jml_tree, reach_root};
ghost use Rattle.declared_names.specs.Seen.{told};
ghost use Rattle.declared_names.specs.Lookups.{in_clause};
ghost use Rattle.typed_expressions.specs.Expressions.{seen};

use crate::literals::jml_literal;
use declared_names::{Declared, Fault, Form, Here, Sort, World};
use java_tree::{JmlNode, JmlTree, ReachTree};
use no_memory::NoMemory;
use std::alloc::Global;
use taco_unit::Expr;
use typed_forms::{
    Typed, has_reach, is_clause, is_exit, literal, make_typed, minus, named_value_in_clause,
    negated_value, old_value, operated_values, place_to_value, quantified_body, quantified_both,
    read_place, result_value, size_reach, this_value, with_variable, within,
};

/// An expression of a clause of this form, inside quantifiers with these variables: its kind and its value, or its
/// fault.
///
/// It goes once over the expression; a name costs a look-up among what is declared.
#[cycle(clauses)]
#[tactic(auto, using(crate::proofs::Arms::jml_arms))]
pub fn jml(
    alloc: Global,
    world: &World<'_>,
    here: &Here<'_>,
    form: Form,
    bound: &[Declared],
    tree: &JmlTree,
) -> Result<Result<Typed, Fault>, NoMemory>
    ensures { IfOk result (λ r. r ≡ told (seen (jml_tree tree.now) (in_clause world.now here.now form bound.now))) }
{
    match &tree.node {
        JmlNode::Num(n) => make_typed(alloc, tree.at, Sort::Int, Expr::Num(literal(*n))),
        JmlNode::Flag(flag) => make_typed(alloc, tree.at, Sort::Flag, Expr::Flag(*flag)),
        JmlNode::Null => make_typed(alloc, tree.at, Sort::Null, Expr::Null),
        JmlNode::This => this_value(alloc, tree.at, here),
        JmlNode::Result => result_value(alloc, tree.at, is_exit(form), here.result),
        JmlNode::Named(name) => named_value_in_clause(alloc, world, here, bound, tree.at, name),
        JmlNode::Read(a, name) => {
            let a = jml(alloc, world, here, form, bound, a)?;
            place_to_value(alloc, read_place(world, tree.at, name, a))
        }
        JmlNode::Paren(a) => {
            let a = jml(alloc, world, here, form, bound, a)?;
            Ok(within(tree.at, a))
        }
        JmlNode::Not(a) => {
            let a = jml(alloc, world, here, form, bound, a)?;
            negated_value(alloc, tree.at, a)
        }
        JmlNode::Neg(a) => {
            let value = jml(alloc, world, here, form, bound, a)?;
            minus(alloc, tree.at, jml_literal(a), value)
        }
        JmlNode::Bin(sign, a, b) => {
            let a = jml(alloc, world, here, form, bound, a)?;
            let b = jml(alloc, world, here, form, bound, b)?;
            operated_values(alloc, tree.at, is_clause(form), *sign, a, b)
        }
        JmlNode::Old(a) => {
            let a = jml(alloc, world, here, Form::Past, bound, a)?;
            old_value(alloc, tree.at, is_exit(form), a)
        }
        JmlNode::Quant(all, kind, name, None, body) => {
            let inner = with_variable(alloc, world, bound, kind, name)?;
            let body = jml(alloc, world, here, form, inner.as_slice(), body)?;
            quantified_body(
                alloc, world, here, form, bound, tree.at, *all, kind, name, body,
            )
        }
        JmlNode::Quant(all, kind, name, Some(range), body) => {
            let inner = with_variable(alloc, world, bound, kind, name)?;
            let range = jml(alloc, world, here, form, inner.as_slice(), range)?;
            let body = jml(alloc, world, here, form, inner.as_slice(), body)?;
            quantified_both(
                alloc, world, here, form, bound, tree.at, *all, kind, name, range, body,
            )
        }
        JmlNode::Has(reach, asked) => {
            let root = root_value(alloc, world, here, form, bound, reach)?;
            let asked = jml(alloc, world, here, form, bound, asked)?;
            has_reach(alloc, world, tree.at, is_clause(form), reach, root, asked)
        }
        JmlNode::Size(reach) => {
            let root = root_value(alloc, world, here, form, bound, reach)?;
            size_reach(alloc, world, tree.at, is_clause(form), reach, root)
        }
    }
}

/// The start of a reach.
#[cycle(clauses)]
fn root_value(
    alloc: Global,
    world: &World<'_>,
    here: &Here<'_>,
    form: Form,
    bound: &[Declared],
    reach: &ReachTree,
) -> Result<Result<Typed, Fault>, NoMemory>
    ensures { IfOk result (λ r. r ≡ told (seen (reach_root reach.now) (in_clause world.now here.now form bound.now))) }
{
    jml(alloc, world, here, form, bound, &reach.root)
}
