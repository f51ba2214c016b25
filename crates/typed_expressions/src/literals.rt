ghost use Rattle.std.specs.Prelude.{◌≡◌, option_map};
ghost use Rattle.java_tree.specs.Seen.{java_tree, jml_tree};
ghost use Rattle.typed_expressions.specs.Expressions.{bare_name as bare_name_lem, literal_of};

use java_tree::{Ident, JavaNode, JavaTree, JmlNode, JmlTree};

/// The number of an expression of code that is a literal.
pub(crate) fn java_literal(tree: &JavaTree) -> Option<u32>
    ensures { result ≡ literal_of (java_tree tree.now) }
{
    match &tree.node {
        JavaNode::Num(n) => Some(*n),
        JavaNode::Flag(_) => None,
        JavaNode::Null => None,
        JavaNode::This => None,
        JavaNode::New(_) => None,
        JavaNode::Named(_) => None,
        JavaNode::Call(_, _) => None,
        JavaNode::Read(_, _) => None,
        JavaNode::CallOn(_, _, _) => None,
        JavaNode::Paren(_) => None,
        JavaNode::Not(_) => None,
        JavaNode::Neg(_) => None,
        JavaNode::Bin(_, _, _) => None,
    }
}

/// The number of an expression of a clause that is a literal.
pub(crate) fn jml_literal(tree: &JmlTree) -> Option<u32>
    ensures { result ≡ literal_of (jml_tree tree.now) }
{
    match &tree.node {
        JmlNode::Num(n) => Some(*n),
        JmlNode::Flag(_) => None,
        JmlNode::Null => None,
        JmlNode::This => None,
        JmlNode::Result => None,
        JmlNode::Named(_) => None,
        JmlNode::Read(_, _) => None,
        JmlNode::Paren(_) => None,
        JmlNode::Not(_) => None,
        JmlNode::Neg(_) => None,
        JmlNode::Bin(_, _, _) => None,
        JmlNode::Old(_) => None,
        JmlNode::Quant(_, _, _, None, _) => None,
        JmlNode::Quant(_, _, _, Some(_), _) => None,
        JmlNode::Has(_, _) => None,
        JmlNode::Size(_) => None,
    }
}

/// The name that stands alone before a dot.
pub(crate) fn bare_name(tree: &JavaTree) -> Option<&Ident>
    ensures { option_map (λ i. i.now) result ≡ bare_name_lem (java_tree tree.now) }
{
    match &tree.node {
        JavaNode::Num(_) => None,
        JavaNode::Flag(_) => None,
        JavaNode::Null => None,
        JavaNode::This => None,
        JavaNode::New(_) => None,
        JavaNode::Named(name) => Some(name),
        JavaNode::Call(_, _) => None,
        JavaNode::Read(_, _) => None,
        JavaNode::CallOn(_, _, _) => None,
        JavaNode::Paren(_) => None,
        JavaNode::Not(_) => None,
        JavaNode::Neg(_) => None,
        JavaNode::Bin(_, _, _) => None,
    }
}
