ghost use Rattle.std.specs.Prelude.{◌≡◌, false, ◌<◌, ◌≤◌, option_map};
ghost use Rattle.java_tree.specs.Seen.{java_tree, java_trees};
ghost use Rattle.reading_core.specs.Deeper.{bracket};
ghost use Rattle.reading_core.specs.Gives.{Gives};
ghost use Rattle.expression_reading.specs.Levels.{readers_of, within_left};
ghost use Rattle.expression_reading.specs.Parts.{grouped_in, negated_in, subtracted_in};
ghost use Rattle.expression_reading.specs.Reading.{argument_in, arguments_in, chain_in, first_is, operand_in, steps_in, unary_in};
ghost use Rattle.reading_core.specs.Read.{is_close, is_comma};
ghost use Rattle.code_reader.specs.Descent.{given_in, made_in, named_in, step_of};

use crate::trees;
use crate::trees::leaf;
use expression_reading::{Link, deeper, empty, goes_on};
use java_lex::{Terminal, Token};
use java_tree::{JavaNode, JavaTree};
use reading_core::{Stop, close, comma, first, ident, name, number, open, terminal_at};
use std::alloc::Global;

/// The number of a whole expression of code.
pub(crate) const TOP: u8 = 6;

/// An operand of the number: from the unary operators (0) to a whole expression (6).
#[cycle(descent)]
pub(crate) fn operand<'a>(
    alloc: Global,
    tokens: &'a [Token],
    left: u8,
    number: u8,
) -> Result<(JavaTree, &'a [Token]), Stop<'a>>
    requires { number ≤ 6 }
    ensures { Gives java_tree result (operand_in false (within_left false left) number tokens.now) }
{
    let (mut tree, mut rest) = unary(alloc, tokens, left)?;
    for link in 0..number {
        let (longer, behind) = chain(alloc, rest, left, link, tree)?;
        tree = longer;
        rest = behind;
    }
    Ok((tree, rest))
}

/// How a chain of operands of the number goes on behind its left part.
#[cycle(descent)]
fn chain<'a>(
    alloc: Global,
    tokens: &'a [Token],
    left: u8,
    number: u8,
    start: JavaTree,
) -> Result<(JavaTree, &'a [Token]), Stop<'a>>
    requires { number < 6 }
    ensures { Gives java_tree result (chain_in false (within_left false left) number (java_tree start) tokens.now) }
{
    let mut tree = start;
    let mut rest = tokens;
    let mut levels = left;
    while let Some((token, behind)) = first(rest) {
        match goes_on(token, false, number) {
            Link::Ends => return Ok((tree, rest)),
            Link::Left(sign) => {
                let Some(less) = deeper(levels) else {
                    return Err(Stop::Deep(rest));
                };
                let (right, after) = operand(alloc, behind, less, number)?;
                tree = trees::bin(alloc, sign, tree, right)?;
                rest = after;
                levels = less;
            }
            Link::Right => unreachable!(),
        }
    }
    Ok((tree, rest))
}

/// What begins with the first token: an operand of the number 0.
#[cycle(descent)]
fn unary<'a>(
    alloc: Global,
    tokens: &'a [Token],
    left: u8,
) -> Result<(JavaTree, &'a [Token]), Stop<'a>>
    ensures { Gives java_tree result (unary_in false (within_left false left) tokens.now) }
{
    let Some((token, rest)) = first(tokens) else {
        return Err(Stop::Wrong(tokens));
    };
    let at = token.from;
    match terminal_at(token, false) {
        Terminal::Not => negated(alloc, tokens, at, rest, left),
        Terminal::Minus => subtracted(alloc, tokens, at, rest, left),
        Terminal::Number => Ok((leaf(at, JavaNode::Num(number(token))), rest)),
        Terminal::True => Ok((leaf(at, JavaNode::Flag(true)), rest)),
        Terminal::False => Ok((leaf(at, JavaNode::Flag(false)), rest)),
        Terminal::Null => Ok((leaf(at, JavaNode::Null), rest)),
        Terminal::This => steps(alloc, rest, left, leaf(at, JavaNode::This)),
        Terminal::Name => named(alloc, token, rest, left),
        Terminal::OpenParen => group(alloc, tokens, at, rest, left),
        Terminal::New => made(alloc, at, rest, left),
        _ => Err(Stop::Wrong(tokens)),
    }
}

/// The operand behind a `!`, which opens a level.
#[cycle(descent)]
fn negated<'a>(
    alloc: Global,
    tokens: &'a [Token],
    at: u32,
    rest: &'a [Token],
    left: u8,
) -> Result<(JavaTree, &'a [Token]), Stop<'a>>
    ensures { Gives java_tree result (negated_in false left at tokens.now rest.now) }
{
    let Some(less) = deeper(left) else {
        return Err(Stop::Deep(tokens));
    };
    let (tree, rest) = operand(alloc, rest, less, 0)?;
    let tree = trees::not(alloc, at, tree)?;
    Ok((tree, rest))
}

/// The operand behind a `-`, which opens a level.
#[cycle(descent)]
fn subtracted<'a>(
    alloc: Global,
    tokens: &'a [Token],
    at: u32,
    rest: &'a [Token],
    left: u8,
) -> Result<(JavaTree, &'a [Token]), Stop<'a>>
    ensures { Gives java_tree result (subtracted_in false left at tokens.now rest.now) }
{
    let Some(less) = deeper(left) else {
        return Err(Stop::Deep(tokens));
    };
    let (tree, rest) = operand(alloc, rest, less, 0)?;
    let tree = trees::negative(alloc, at, tree)?;
    Ok((tree, rest))
}

/// An expression in brackets behind its `(`, which opens a level, and what goes on with it by steps.
#[cycle(descent)]
fn group<'a>(
    alloc: Global,
    tokens: &'a [Token],
    at: u32,
    rest: &'a [Token],
    left: u8,
) -> Result<(JavaTree, &'a [Token]), Stop<'a>>
    ensures { Gives java_tree result (grouped_in false left at tokens.now rest.now) }
{
    let Some(less) = deeper(left) else {
        return Err(Stop::Deep(tokens));
    };
    let (tree, rest) = operand(alloc, rest, less, TOP)?;
    let (_close, rest) = close(rest, false)?;
    let tree = trees::paren(alloc, at, tree)?;
    steps(alloc, rest, left, tree)
}

/// A name, its arguments if it has some, and what goes on with it by steps.
#[cycle(descent)]
fn named<'a>(
    alloc: Global,
    word: &Token,
    tokens: &'a [Token],
    left: u8,
) -> Result<(JavaTree, &'a [Token]), Stop<'a>>
    ensures { Gives java_tree result (named_in left word.now tokens.now) }
{
    let name = ident(alloc, word)?;
    let (arguments, rest) = given(alloc, tokens, left)?;
    let tree = trees::step(alloc, None, name, arguments)?;
    steps(alloc, rest, left, tree)
}

/// A new object behind its `new`, and what goes on with it by steps.
#[cycle(descent)]
fn made<'a>(
    alloc: Global,
    at: u32,
    tokens: &'a [Token],
    left: u8,
) -> Result<(JavaTree, &'a [Token]), Stop<'a>>
    ensures { Gives java_tree result (made_in left at tokens.now) }
{
    let (word, rest) = name(tokens, false)?;
    let name = ident(alloc, word)?;
    let ((), rest) = empty(rest, false, left)?;
    steps(alloc, rest, left, leaf(at, JavaNode::New(name)))
}

/// The names that are read or called behind an expression, each behind a `.`, which opens a level.
#[cycle(descent)]
fn steps<'a>(
    alloc: Global,
    tokens: &'a [Token],
    left: u8,
    start: JavaTree,
) -> Result<(JavaTree, &'a [Token]), Stop<'a>>
    ensures { Gives java_tree result (steps_in false (within_left false left) (java_tree start) tokens.now) }
{
    let mut tree = start;
    let mut rest = tokens;
    let mut levels = left;
    while let Some((token, behind)) = first(rest) {
        let Terminal::Dot = terminal_at(token, false) else {
            return Ok((tree, rest));
        };
        let Some(less) = deeper(levels) else {
            return Err(Stop::Deep(rest));
        };
        let (longer, after) = step(alloc, behind, less, tree)?;
        tree = longer;
        rest = after;
        levels = less;
    }
    Ok((tree, rest))
}

/// A name behind a target and its `.`, and its arguments if it has some.
#[cycle(descent)]
fn step<'a>(
    alloc: Global,
    tokens: &'a [Token],
    left: u8,
    target: JavaTree,
) -> Result<(JavaTree, &'a [Token]), Stop<'a>>
    ensures { Gives java_tree result (step_of left (java_tree target) tokens.now) }
{
    let (word, rest) = name(tokens, false)?;
    let name = ident(alloc, word)?;
    let (arguments, rest) = given(alloc, rest, left)?;
    let tree = trees::step(alloc, Some(target), name, arguments)?;
    Ok((tree, rest))
}

/// The arguments behind a name, if it has some.
#[cycle(descent)]
fn given<'a>(
    alloc: Global,
    tokens: &'a [Token],
    left: u8,
) -> Result<(Option<Vec<JavaTree>>, &'a [Token]), Stop<'a>>
    ensures { Gives (option_map (λ v. java_trees v.items)) result (given_in left tokens.now) }
{
    let Some((token, _behind)) = first(tokens) else {
        return Ok((None, tokens));
    };
    if !matches!(terminal_at(token, false), Terminal::OpenParen) {
        return Ok((None, tokens));
    }
    let (arguments, rest) = arguments(alloc, tokens, left)?;
    Ok((Some(arguments), rest))
}

/// Arguments in their brackets, which open a level.
#[cycle(descent)]
pub(crate) fn arguments<'a>(
    alloc: Global,
    tokens: &'a [Token],
    left: u8,
) -> Result<(Vec<JavaTree>, &'a [Token]), Stop<'a>>
    ensures { Gives (λ v. java_trees v.items) result (bracket false (within_left false left) tokens.now arguments_in) }
{
    let (_open, rest) = open(tokens, false)?;
    let Some(less) = deeper(left) else {
        return Err(Stop::Deep(tokens));
    };
    let (arguments, rest) = inside(alloc, rest, less)?;
    let (_close, rest) = close(rest, false)?;
    Ok((arguments, rest))
}

/// The arguments in their brackets, up to the `)`; their level is open.
#[cycle(descent)]
fn inside<'a>(
    alloc: Global,
    tokens: &'a [Token],
    less: u8,
) -> Result<(Vec<JavaTree>, &'a [Token]), Stop<'a>>
    ensures { Gives (λ v. java_trees v.items) result (arguments_in (readers_of false less) tokens.now) }
{
    let mut arguments = Vec::new(alloc);
    if is_end(tokens) {
        return Ok((arguments, tokens));
    }
    let (tree, mut rest) = operand(alloc, tokens, less, TOP)?;
    arguments.push(tree)?;
    'arguments: while goes_on_by_comma(rest) {
        let (tree, after) = argument(alloc, rest, less)?;
        arguments.push(tree)?;
        rest = after;
    }
    Ok((arguments, rest))
}

/// One more argument, behind its comma.
#[cycle(descent)]
fn argument<'a>(
    alloc: Global,
    tokens: &'a [Token],
    less: u8,
) -> Result<(JavaTree, &'a [Token]), Stop<'a>>
    ensures { Gives java_tree result (argument_in (readers_of false less) tokens.now) }
{
    let (_comma, rest) = comma(tokens, false)?;
    operand(alloc, rest, less, TOP)
}

/// Whether a `)` comes first.
fn is_end(tokens: &[Token]) -> bool
    ensures { result ≡ first_is (is_close false) tokens.now }
{
    match first(tokens) {
        Some((token, _behind)) => matches!(terminal_at(token, false), Terminal::CloseParen),
        None => false,
    }
}

/// Whether a `,` comes first.
fn goes_on_by_comma(tokens: &[Token]) -> bool
    ensures { result ≡ first_is (is_comma false) tokens.now }
{
    match first(tokens) {
        Some((token, _behind)) => matches!(terminal_at(token, false), Terminal::Comma),
        None => false,
    }
}
