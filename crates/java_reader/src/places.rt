ghost use Rattle.std.specs.Prelude.{◌≡◌, ◌<◌, false, None, option_map, IfOk, length};
ghost use Rattle.java_tree.specs.Trees.{step as step_tree};
ghost use Rattle.java_tree.specs.Seen.{java_tree, stmt_tree};
ghost use Rattle.reading_core.specs.Gives.{Gives};
ghost use Rattle.java_reading.specs.Readers.{give};
ghost use Rattle.java_reading.specs.Tokens.{fixed as fixed_lem};
ghost use Rattle.java_reading.specs.declared.marks.Fixed.TheVariants.{Semicolon as FixedSemicolon};
ghost use Rattle.java_reading.specs.StatementReading.{assigned_in, further_in, named_in, reached_in, step_in};
ghost use Rattle.text_reading.specs.Readers.{arguments_at, expression_at};
ghost use Rattle.code_reader.specs.Targets.{called_on, plain_of};

use code_reader::{arguments, called, expression, plain};
use java_lex::Token;
use java_reading::{Fixed, Reached, Turn, fixed, lower, name, next_is, turn_at};
use java_tree::{Ident, JavaTree, StmtTree};
use reading_core::{Stop, first, terminal_at};
use std::alloc::Global;

/// A value and `;`, behind the `=` of an assignment to this.
fn assigned(
    alloc: Global,
    base: u8,
    target: JavaTree,
    tokens: &[Token],
) -> Result<(StmtTree, &[Token]), Stop<'_>>
    ensures is { Gives stmt_tree result (assigned_in expression_at arguments_at base None (java_tree target) tokens.now) }
    ensures shorter { IfOk result (λ x. length x.1.now < length tokens.now) }
{
    let (value, rest) = expression(alloc, base, tokens)?;
    let rest = fixed(rest, false, Fixed::Semicolon)?;
    Ok((StmtTree::Set(target, value), rest))
}

/// The `;` behind a step.
fn stepped(target: JavaTree, up: bool, tokens: &[Token]) -> Result<(StmtTree, &[Token]), Stop<'_>>
    ensures is { Gives stmt_tree result (give (λ u. step_tree (java_tree target) up) (fixed_lem false FixedSemicolon tokens.now)) }
    ensures shorter { IfOk result (λ x. length x.1.now < length tokens.now) }
{
    let rest = fixed(tokens, false, Fixed::Semicolon)?;
    Ok((StmtTree::Step(target, up), rest))
}

/// What a statement is that begins with what was read so far: each `.` opens a level up to its end. `base`: how
/// many levels are left where it begins; `left`: how many are left here.
#[cycle(places)]
pub(crate) fn reached(
    alloc: Global,
    base: u8,
    left: u8,
    kind: Reached,
    tree: JavaTree,
    tokens: &[Token],
) -> Result<(StmtTree, &[Token]), Stop<'_>>
    ensures is { Gives stmt_tree result (reached_in expression_at arguments_at base (further_in expression_at arguments_at base left) kind (java_tree tree) tokens.now) }
    ensures shorter { IfOk result (λ x. length x.1.now < length tokens.now) }
{
    let Some((token, rest)) = first(tokens) else {
        return Err(Stop::Wrong(tokens));
    };
    match turn_at(kind, terminal_at(token, false)) {
        Turn::Assigns => assigned(alloc, base, tree, rest),
        Turn::Up => stepped(tree, true, rest),
        Turn::Down => stepped(tree, false, rest),
        Turn::Ends => Ok((StmtTree::Run(tree), rest)),
        Turn::Goes => match lower(left) {
            None => Err(Stop::Deep(tokens)),
            Some(less) => step(alloc, base, less, tree, rest),
        },
        Turn::Fails => Err(Stop::Wrong(tokens)),
    }
}

/// A name and so on, behind a `.`.
#[cycle(places)]
fn step(
    alloc: Global,
    base: u8,
    left: u8,
    target: JavaTree,
    tokens: &[Token],
) -> Result<(StmtTree, &[Token]), Stop<'_>>
    ensures is { Gives stmt_tree result (step_in expression_at arguments_at base left (java_tree target) tokens.now) }
    ensures shorter { IfOk result (λ x. length x.1.now < length tokens.now) }
{
    let (name, rest) = name(alloc, tokens, false)?;
    named(alloc, base, left, Some(target), name, rest)
}

/// What stands behind a name that is alone or behind a `.`.
#[cycle(places)]
pub(crate) fn named(
    alloc: Global,
    base: u8,
    left: u8,
    target: Option<JavaTree>,
    name: Ident,
    tokens: &[Token],
) -> Result<(StmtTree, &[Token]), Stop<'_>>
    ensures is { Gives stmt_tree result (named_in expression_at arguments_at base (further_in expression_at arguments_at base left) left (plain_of (option_map java_tree target) name) (called_on (option_map java_tree target) name) tokens.now) }
    ensures shorter { IfOk result (λ x. length x.1.now < length tokens.now) }
{
    if next_is(tokens, false, Fixed::OpenParen) {
        let (values, rest) = arguments(alloc, left, tokens)?;
        let tree = called(alloc, target, name, values)?;
        reached(alloc, base, left, Reached::Call, tree, rest)
    } else {
        let tree = plain(alloc, target, name)?;
        reached(alloc, base, left, Reached::Place, tree, tokens)
    }
}
