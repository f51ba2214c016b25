ghost use Rattle.std.specs.Prelude.{◌≡◌, map};
ghost use Rattle.java_tree.specs.Seen.{class_tree, classes_tree};
ghost use Rattle.reading_core.specs.Gives.{Gives};
ghost use Rattle.java_reading.specs.MemberReading.{text_in, unit_in};
ghost use Rattle.text_reading.specs.Readers.{arguments_at, expression_at, predicate_at};

use crate::classes::classes;
use crate::headers::{skip_imports, skip_own_package};
use java_lex::Token;
use java_reading::{Fixed, fixed};
use java_tree::{ClassTree, Tree};
use reading_core::Stop;
use std::alloc::Global;

/// The classes of a text, behind its package line and its imports. Linear in the tokens that are read.
fn unit(alloc: Global, left: u8, tokens: &[Token]) -> Result<(Vec<ClassTree>, &[Token]), Stop<'_>>
    ensures { Gives (λ v. map class_tree v.items) result (unit_in expression_at arguments_at predicate_at left tokens.now) }
{
    let rest = skip_own_package(tokens)?;
    let rest = skip_imports(rest)?;
    classes(alloc, left, rest)
}

/// A whole text, where so many levels may be open at once. Linear in the tokens that are read.
pub(crate) fn whole_text(
    alloc: Global,
    left: u8,
    tokens: &[Token],
) -> Result<(Tree, &[Token]), Stop<'_>>
    ensures { Gives classes_tree result (text_in expression_at arguments_at predicate_at left tokens.now) }
{
    let (classes, rest) = unit(alloc, left, tokens)?;
    let rest = fixed(rest, false, Fixed::End)?;
    Ok((Tree { classes }, rest))
}
