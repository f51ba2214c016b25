ghost use Rattle.std.specs.Prelude.{◌≡◌, IfOk, Option, Some, None, option_map};
ghost use Rattle.java_tree.specs.Trees.{bin as bin_lem, minus, negation, paren as paren_lem, call as call_lem, call_on as call_on_lem};
ghost use Rattle.java_tree.specs.Expressions.{place};
ghost use Rattle.java_tree.specs.Seen.{java_node, java_tree, java_trees};
ghost use Rattle.code_reader.specs.Targets.{called_on, plain_of, step_on};

use java_tree::{Ident, JavaNode, JavaTree, Sign};
use no_memory::NoMemory;
use std::alloc::Global;

/// A tree without parts.
pub(crate) fn leaf(at: u32, node: JavaNode) -> JavaTree
    ensures { java_tree result ≡ java_node at node }
{
    JavaTree { at, node }
}

/// `!` before an expression.
pub(crate) fn not(alloc: Global, at: u32, tree: JavaTree) -> Result<JavaTree, NoMemory>
    ensures { IfOk result (λ t. java_tree t ≡ negation at (java_tree tree)) }
{
    let tree = Box::new(alloc, tree)?;
    Ok(leaf(at, JavaNode::Not(tree)))
}

/// `-` before an expression.
pub(crate) fn negative(alloc: Global, at: u32, tree: JavaTree) -> Result<JavaTree, NoMemory>
    ensures { IfOk result (λ t. java_tree t ≡ minus at (java_tree tree)) }
{
    let tree = Box::new(alloc, tree)?;
    Ok(leaf(at, JavaNode::Neg(tree)))
}

/// An expression in brackets.
pub(crate) fn paren(alloc: Global, at: u32, tree: JavaTree) -> Result<JavaTree, NoMemory>
    ensures { IfOk result (λ t. java_tree t ≡ paren_lem at (java_tree tree)) }
{
    let tree = Box::new(alloc, tree)?;
    Ok(leaf(at, JavaNode::Paren(tree)))
}

/// Two expressions with an operator between them.
pub(crate) fn bin(
    alloc: Global,
    sign: Sign,
    left: JavaTree,
    right: JavaTree,
) -> Result<JavaTree, NoMemory>
    ensures { IfOk result (λ t. java_tree t ≡ bin_lem (place (java_tree left)) sign (java_tree left) (java_tree right)) }
{
    let at = left.at;
    let left = Box::new(alloc, left)?;
    let right = Box::new(alloc, right)?;
    Ok(JavaTree {
        at,
        node: JavaNode::Bin(sign, left, right),
    })
}

/// A name behind a target and its `.`, or alone. The memory of a box with a target, none without.
pub fn plain(alloc: Global, target: Option<JavaTree>, name: Ident) -> Result<JavaTree, NoMemory>
    ensures { IfOk result (λ t. java_tree t ≡ plain_of (option_map java_tree target) name) }
{
    match target {
        None => Ok(JavaTree {
            at: name.at,
            node: JavaNode::Named(name),
        }),
        Some(target) => {
            let at = target.at;
            let target = Box::new(alloc, target)?;
            Ok(JavaTree {
                at,
                node: JavaNode::Read(target, name),
            })
        }
    }
}

/// A call.
fn call(name: Ident, arguments: Vec<JavaTree>) -> JavaTree
    ensures { java_tree result ≡ call_lem name.at name (java_trees arguments.items) }
{
    JavaTree {
        at: name.at,
        node: JavaNode::Call(name, arguments),
    }
}

/// A call behind a target and its `.`.
fn call_on(
    alloc: Global,
    target: JavaTree,
    name: Ident,
    arguments: Vec<JavaTree>,
) -> Result<JavaTree, NoMemory>
    ensures { IfOk result (λ t. java_tree t ≡ call_on_lem (place (java_tree target)) (java_tree target) name (java_trees arguments.items)) }
{
    let at = target.at;
    let target = Box::new(alloc, target)?;
    Ok(JavaTree {
        at,
        node: JavaNode::CallOn(target, name, arguments),
    })
}

/// A name with its arguments, behind a target and its `.`, or alone. The memory of a box with a target, none without.
pub fn called(
    alloc: Global,
    target: Option<JavaTree>,
    name: Ident,
    arguments: Vec<JavaTree>,
) -> Result<JavaTree, NoMemory>
    ensures { IfOk result (λ t. java_tree t ≡ called_on (option_map java_tree target) name (java_trees arguments.items)) }
{
    match target {
        None => Ok(call(name, arguments)),
        Some(target) => call_on(alloc, target, name, arguments),
    }
}

/// A name, with its arguments if it has some, behind a target and its `.`, or alone.
pub(crate) fn step(
    alloc: Global,
    target: Option<JavaTree>,
    name: Ident,
    arguments: Option<Vec<JavaTree>>,
) -> Result<JavaTree, NoMemory>
    ensures { IfOk result (λ t. java_tree t ≡ step_on (option_map java_tree target) name (option_map (λ v. java_trees v.items) arguments)) }
{
    match arguments {
        None => plain(alloc, target, name),
        Some(arguments) => called(alloc, target, name, arguments),
    }
}
