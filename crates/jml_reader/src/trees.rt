ghost use Rattle.std.specs.Prelude.{◌≡◌, IfOk, Option, Some, None};
ghost use Rattle.java_tree.specs.Trees.{bin as bin_lem, has as has_lem, minus, negation, old as old_lem, paren as paren_lem, quant, quant_in, read as read_lem, size as size_lem};
ghost use Rattle.java_tree.specs.Expressions.{place};
ghost use Rattle.java_tree.specs.Seen.{jml_tree};
ghost use Rattle.jml_reader.specs.Reaches.{reach_of};

use java_tree::{Ident, JmlNode, JmlTree, ReachTree, Sign};
use no_memory::NoMemory;
use std::alloc::Global;

/// `!` before an expression.
pub(crate) fn not(alloc: Global, at: u32, tree: JmlTree) -> Result<JmlTree, NoMemory>
    ensures { IfOk result (λ t. jml_tree t ≡ negation at (jml_tree tree)) }
{
    let tree = Box::new(alloc, tree)?;
    Ok(JmlTree {
        at,
        node: JmlNode::Not(tree),
    })
}

/// `-` before an expression.
pub(crate) fn negative(alloc: Global, at: u32, tree: JmlTree) -> Result<JmlTree, NoMemory>
    ensures { IfOk result (λ t. jml_tree t ≡ minus at (jml_tree tree)) }
{
    let tree = Box::new(alloc, tree)?;
    Ok(JmlTree {
        at,
        node: JmlNode::Neg(tree),
    })
}

/// An expression in brackets.
pub(crate) fn paren(alloc: Global, at: u32, tree: JmlTree) -> Result<JmlTree, NoMemory>
    ensures { IfOk result (λ t. jml_tree t ≡ paren_lem at (jml_tree tree)) }
{
    let tree = Box::new(alloc, tree)?;
    Ok(JmlTree {
        at,
        node: JmlNode::Paren(tree),
    })
}

/// `\old` of an expression.
pub(crate) fn old(alloc: Global, at: u32, tree: JmlTree) -> Result<JmlTree, NoMemory>
    ensures { IfOk result (λ t. jml_tree t ≡ old_lem at (jml_tree tree)) }
{
    let tree = Box::new(alloc, tree)?;
    Ok(JmlTree {
        at,
        node: JmlNode::Old(tree),
    })
}

/// A name behind an expression and a `.`.
pub(crate) fn read(alloc: Global, tree: JmlTree, name: Ident) -> Result<JmlTree, NoMemory>
    ensures { IfOk result (λ t. jml_tree t ≡ read_lem (place (jml_tree tree)) (jml_tree tree) name) }
{
    let at = tree.at;
    let tree = Box::new(alloc, tree)?;
    Ok(JmlTree {
        at,
        node: JmlNode::Read(tree, name),
    })
}

/// Two expressions with an operator between them.
pub(crate) fn bin(
    alloc: Global,
    sign: Sign,
    left: JmlTree,
    right: JmlTree,
) -> Result<JmlTree, NoMemory>
    ensures { IfOk result (λ t. jml_tree t ≡ bin_lem (place (jml_tree left)) sign (jml_tree left) (jml_tree right)) }
{
    let at = left.at;
    let left = Box::new(alloc, left)?;
    let right = Box::new(alloc, right)?;
    Ok(JmlTree {
        at,
        node: JmlNode::Bin(sign, left, right),
    })
}

/// A quantifier with its body.
pub(crate) fn quantifier(
    alloc: Global,
    at: u32,
    all: bool,
    class: Ident,
    name: Ident,
    body: JmlTree,
) -> Result<JmlTree, NoMemory>
    ensures { IfOk result (λ t. jml_tree t ≡ quant at all class name (jml_tree body)) }
{
    let body = Box::new(alloc, body)?;
    Ok(JmlTree {
        at,
        node: JmlNode::Quant(all, class, name, None, body),
    })
}

/// A quantifier with its range and its body.
pub(crate) fn quantifier_in(
    alloc: Global,
    at: u32,
    all: bool,
    class: Ident,
    name: Ident,
    range: JmlTree,
    body: JmlTree,
) -> Result<JmlTree, NoMemory>
    ensures { IfOk result (λ t. jml_tree t ≡ quant_in at all class name (jml_tree range) (jml_tree body)) }
{
    let range = Box::new(alloc, range)?;
    let body = Box::new(alloc, body)?;
    Ok(JmlTree {
        at,
        node: JmlNode::Quant(all, class, name, Some(range), body),
    })
}

/// What is asked of a reach: whether it has an object.
pub(crate) fn has(
    alloc: Global,
    at: u32,
    reach: ReachTree,
    object: JmlTree,
) -> Result<JmlTree, NoMemory>
    ensures { IfOk result (λ t. jml_tree t ≡ (let r = reach_of reach in has_lem at r.root r.kind r.fields (jml_tree object))) }
{
    let object = Box::new(alloc, object)?;
    Ok(JmlTree {
        at,
        node: JmlNode::Has(reach, object),
    })
}

/// What is asked of a reach: its size.
pub(crate) fn size(at: u32, reach: ReachTree) -> JmlTree
    ensures { jml_tree result ≡ (let r = reach_of reach in size_lem at r.root r.kind r.fields) }
{
    JmlTree {
        at,
        node: JmlNode::Size(reach),
    }
}

/// The start of a reach, its class and its fields.
pub(crate) fn reach(
    alloc: Global,
    root: JmlTree,
    class: Ident,
    fields: Vec<Ident>,
) -> Result<ReachTree, NoMemory>
    ensures { IfOk result (λ r. reach_of r ≡ record { root = jml_tree root; kind = class; fields = fields.items }) }
{
    let root = Box::new(alloc, root)?;
    Ok(ReachTree {
        root,
        class,
        fields,
    })
}
