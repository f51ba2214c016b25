ghost use Rattle.std.specs.Prelude.{◌≡◌, true, ◌<◌, ◌≤◌};
ghost use Rattle.java_tree.specs.Seen.{jml_node, jml_tree};
ghost use Rattle.reading_core.specs.Deeper.{bracket};
ghost use Rattle.reading_core.specs.Gives.{Gives};
ghost use Rattle.expression_reading.specs.Levels.{readers_of, within_left};
ghost use Rattle.expression_reading.specs.Reading.{chain_in, operand_in, paren_in, quantified_in, question_in, is_word as is_word_in, reach_in, unary_in};
ghost use Rattle.expression_reading.specs.Parts.{grouped_in, negated_in, subtracted_in};
ghost use Rattle.jml_reader.specs.Descent.{bracketed_in, implied_in, old_in, ranged_in, reached_in};
ghost use Rattle.jml_reader.specs.Reaches.{reach_of};

use crate::reaches::fields;
use crate::steps::steps;
use crate::trees;
use expression_reading::{Link, deeper, empty, goes_on};
use java_lex::words::{HAS, INT_SIZE};
use java_lex::{Terminal, Token};
use java_tree::{Ident, JmlNode, JmlTree, ReachTree, Sign};
use reading_core::{
    Stop, close, comma, first, ident, is_word, name, number, open, semicolon, terminal_at,
};
use std::alloc::Global;

/// The number of a whole expression of a clause.
pub(crate) const TOP: u8 = 8;

/// The number of an operand of `==>` on its right.
const IMPLIED: u8 = 7;

/// An operand of the number: from the unary operators (0) to a whole expression (8).
#[cycle(descent)]
pub(crate) fn operand<'a>(
    alloc: Global,
    tokens: &'a [Token],
    left: u8,
    number: u8,
) -> Result<(JmlTree, &'a [Token]), Stop<'a>>
    requires { number ≤ 8 }
    ensures { Gives jml_tree result (operand_in true (within_left true left) number tokens.now) }
{
    let (mut tree, mut rest) = unary(alloc, tokens, left)?;
    for link in 0..number {
        let (longer, behind) = chain(alloc, rest, left, link, tree)?;
        tree = longer;
        rest = behind;
    }
    Ok((tree, rest))
}

/// How a chain of operands of the number goes on behind its left part.
#[cycle(descent)]
fn chain<'a>(
    alloc: Global,
    tokens: &'a [Token],
    left: u8,
    number: u8,
    start: JmlTree,
) -> Result<(JmlTree, &'a [Token]), Stop<'a>>
    requires { number < 8 }
    ensures { Gives jml_tree result (chain_in true (within_left true left) number (jml_tree start) tokens.now) }
{
    let mut tree = start;
    let mut rest = tokens;
    let mut levels = left;
    while let Some((token, behind)) = first(rest) {
        match goes_on(token, true, number) {
            Link::Ends => return Ok((tree, rest)),
            Link::Left(sign) => {
                let Some(less) = deeper(levels) else {
                    return Err(Stop::Deep(rest));
                };
                let (right, after) = operand(alloc, behind, less, number)?;
                tree = trees::bin(alloc, sign, tree, right)?;
                rest = after;
                levels = less;
            }
            Link::Right => return implied(alloc, rest, behind, levels, tree),
        }
    }
    Ok((tree, rest))
}

/// An operand behind `==>`, which opens a level.
#[cycle(descent)]
fn implied<'a>(
    alloc: Global,
    tokens: &'a [Token],
    behind: &'a [Token],
    left: u8,
    start: JmlTree,
) -> Result<(JmlTree, &'a [Token]), Stop<'a>>
    ensures { Gives jml_tree result (implied_in left (jml_tree start) tokens.now behind.now) }
{
    let Some(less) = deeper(left) else {
        return Err(Stop::Deep(tokens));
    };
    let (right, rest) = operand(alloc, behind, less, IMPLIED)?;
    let tree = trees::bin(alloc, Sign::Implies, start, right)?;
    Ok((tree, rest))
}

/// What begins with the first token: an operand of the number 0.
#[cycle(descent)]
fn unary<'a>(
    alloc: Global,
    tokens: &'a [Token],
    left: u8,
) -> Result<(JmlTree, &'a [Token]), Stop<'a>>
    ensures { Gives jml_tree result (unary_in true (within_left true left) tokens.now) }
{
    let Some((token, rest)) = first(tokens) else {
        return Err(Stop::Wrong(tokens));
    };
    let at = token.from;
    match terminal_at(token, true) {
        Terminal::Not => negated(alloc, tokens, at, rest, left),
        Terminal::Minus => subtracted(alloc, tokens, at, rest, left),
        Terminal::Number => Ok((leaf(at, JmlNode::Num(number(token))), rest)),
        Terminal::True => Ok((leaf(at, JmlNode::Flag(true)), rest)),
        Terminal::False => Ok((leaf(at, JmlNode::Flag(false)), rest)),
        Terminal::Null => Ok((leaf(at, JmlNode::Null), rest)),
        Terminal::This => steps(alloc, rest, left, leaf(at, JmlNode::This)),
        Terminal::ResultValue => steps(alloc, rest, left, leaf(at, JmlNode::Result)),
        Terminal::Name => {
            let name = ident(alloc, token)?;
            steps(alloc, rest, left, leaf(at, JmlNode::Named(name)))
        }
        Terminal::OpenParen => group(alloc, tokens, at, rest, left),
        Terminal::Old => old(alloc, at, rest, left),
        Terminal::Reach => reached(alloc, at, rest, left),
        _ => Err(Stop::Wrong(tokens)),
    }
}

/// A tree without parts.
fn leaf(at: u32, node: JmlNode) -> JmlTree
    ensures { jml_tree result ≡ jml_node at node }
{
    JmlTree { at, node }
}

/// The operand behind a `!`, which opens a level.
#[cycle(descent)]
fn negated<'a>(
    alloc: Global,
    tokens: &'a [Token],
    at: u32,
    rest: &'a [Token],
    left: u8,
) -> Result<(JmlTree, &'a [Token]), Stop<'a>>
    ensures { Gives jml_tree result (negated_in true left at tokens.now rest.now) }
{
    let Some(less) = deeper(left) else {
        return Err(Stop::Deep(tokens));
    };
    let (tree, rest) = operand(alloc, rest, less, 0)?;
    let tree = trees::not(alloc, at, tree)?;
    Ok((tree, rest))
}

/// The operand behind a `-`, which opens a level.
#[cycle(descent)]
fn subtracted<'a>(
    alloc: Global,
    tokens: &'a [Token],
    at: u32,
    rest: &'a [Token],
    left: u8,
) -> Result<(JmlTree, &'a [Token]), Stop<'a>>
    ensures { Gives jml_tree result (subtracted_in true left at tokens.now rest.now) }
{
    let Some(less) = deeper(left) else {
        return Err(Stop::Deep(tokens));
    };
    let (tree, rest) = operand(alloc, rest, less, 0)?;
    let tree = trees::negative(alloc, at, tree)?;
    Ok((tree, rest))
}

/// What stands behind a `(`, which opens a level: a quantifier, or an expression in brackets.
#[cycle(descent)]
fn group<'a>(
    alloc: Global,
    tokens: &'a [Token],
    at: u32,
    rest: &'a [Token],
    left: u8,
) -> Result<(JmlTree, &'a [Token]), Stop<'a>>
    ensures { Gives jml_tree result (grouped_in true left at tokens.now rest.now) }
{
    let Some(less) = deeper(left) else {
        return Err(Stop::Deep(tokens));
    };
    let Some((token, behind)) = first(rest) else {
        return Err(Stop::Wrong(rest));
    };
    match terminal_at(token, true) {
        Terminal::Forall => quantified(alloc, at, true, behind, less),
        Terminal::Exists => quantified(alloc, at, false, behind, less),
        _ => paren(alloc, at, rest, left, less),
    }
}

/// The rest of an expression in brackets, and what goes on with it by steps.
#[cycle(descent)]
fn paren<'a>(
    alloc: Global,
    at: u32,
    tokens: &'a [Token],
    left: u8,
    less: u8,
) -> Result<(JmlTree, &'a [Token]), Stop<'a>>
    requires { less < left }
    ensures { Gives jml_tree result (paren_in true (within_left true left) at (readers_of true less) tokens.now) }
{
    let (tree, rest) = operand(alloc, tokens, less, TOP)?;
    let (_close, rest) = close(rest, true)?;
    let tree = trees::paren(alloc, at, tree)?;
    steps(alloc, rest, left, tree)
}

/// A quantifier behind its word; its level is open.
#[cycle(descent)]
fn quantified<'a>(
    alloc: Global,
    at: u32,
    all: bool,
    tokens: &'a [Token],
    less: u8,
) -> Result<(JmlTree, &'a [Token]), Stop<'a>>
    ensures { Gives jml_tree result (quantified_in (readers_of true less) at all tokens.now) }
{
    let (class, rest) = name(tokens, true)?;
    let (variable, rest) = name(rest, true)?;
    let (_semicolon, rest) = semicolon(rest, true)?;
    let (tree, rest) = operand(alloc, rest, less, TOP)?;
    let class = ident(alloc, class)?;
    let variable = ident(alloc, variable)?;
    let Some((token, behind)) = first(rest) else {
        return Err(Stop::Wrong(rest));
    };
    match terminal_at(token, true) {
        Terminal::Semicolon => ranged(alloc, at, all, class, variable, tree, behind, less),
        Terminal::CloseParen => {
            let tree = trees::quantifier(alloc, at, all, class, variable, tree)?;
            Ok((tree, behind))
        }
        _ => Err(Stop::Wrong(rest)),
    }
}

/// The body of a quantifier with a range, behind its second `;`; its level is open.
#[cycle(descent)]
fn ranged<'a>(
    alloc: Global,
    at: u32,
    all: bool,
    class: Ident,
    variable: Ident,
    range: JmlTree,
    tokens: &'a [Token],
    less: u8,
) -> Result<(JmlTree, &'a [Token]), Stop<'a>>
    ensures { Gives jml_tree result (ranged_in less at all class variable (jml_tree range) tokens.now) }
{
    let (body, rest) = operand(alloc, tokens, less, TOP)?;
    let (_close, rest) = close(rest, true)?;
    let tree = trees::quantifier_in(alloc, at, all, class, variable, range, body)?;
    Ok((tree, rest))
}

/// A whole expression in its brackets.
#[cycle(descent)]
fn bracketed<'a>(
    alloc: Global,
    tokens: &'a [Token],
    left: u8,
) -> Result<(JmlTree, &'a [Token]), Stop<'a>>
    ensures { Gives jml_tree result (bracketed_in left tokens.now) }
{
    let (_open, rest) = open(tokens, true)?;
    let Some(less) = deeper(left) else {
        return Err(Stop::Deep(tokens));
    };
    let (tree, rest) = operand(alloc, rest, less, TOP)?;
    let (_close, rest) = close(rest, true)?;
    Ok((tree, rest))
}

/// `\old` behind its word.
#[cycle(descent)]
fn old<'a>(
    alloc: Global,
    at: u32,
    tokens: &'a [Token],
    left: u8,
) -> Result<(JmlTree, &'a [Token]), Stop<'a>>
    ensures { Gives jml_tree result (old_in left at tokens.now) }
{
    let (tree, rest) = bracketed(alloc, tokens, left)?;
    let tree = trees::old(alloc, at, tree)?;
    steps(alloc, rest, left, tree)
}

/// A reach behind its word, and what is asked of it.
#[cycle(descent)]
fn reached<'a>(
    alloc: Global,
    at: u32,
    tokens: &'a [Token],
    left: u8,
) -> Result<(JmlTree, &'a [Token]), Stop<'a>>
    ensures { Gives jml_tree result (reached_in left at tokens.now) }
{
    let (reach, rest) = reach(alloc, tokens, left)?;
    let Some((token, behind)) = first(rest) else {
        return Err(Stop::Wrong(rest));
    };
    match terminal_at(token, true) {
        Terminal::Dot => question(alloc, at, reach, behind, left),
        _ => Err(Stop::Wrong(rest)),
    }
}

/// The brackets of a reach.
#[cycle(descent)]
fn reach<'a>(
    alloc: Global,
    tokens: &'a [Token],
    left: u8,
) -> Result<(ReachTree, &'a [Token]), Stop<'a>>
    ensures { Gives reach_of result (bracket true (within_left true left) tokens.now reach_in) }
{
    let (_open, rest) = open(tokens, true)?;
    let Some(less) = deeper(left) else {
        return Err(Stop::Deep(tokens));
    };
    let (reach, rest) = inside(alloc, rest, less)?;
    let (_close, rest) = close(rest, true)?;
    Ok((reach, rest))
}

/// What stands in the brackets of a reach; their level is open.
#[cycle(descent)]
fn inside<'a>(
    alloc: Global,
    tokens: &'a [Token],
    less: u8,
) -> Result<(ReachTree, &'a [Token]), Stop<'a>>
    ensures { Gives reach_of result (reach_in (readers_of true less) tokens.now) }
{
    let (root, rest) = operand(alloc, tokens, less, TOP)?;
    let (_comma, rest) = comma(rest, true)?;
    let (class, rest) = name(rest, true)?;
    let (_comma, rest) = comma(rest, true)?;
    let (field, rest) = name(rest, true)?;
    let class = ident(alloc, class)?;
    let field = ident(alloc, field)?;
    let (fields, rest) = fields(alloc, rest, field)?;
    let reach = trees::reach(alloc, root, class, fields)?;
    Ok((reach, rest))
}

/// What is asked of a reach, behind its `.`.
#[cycle(descent)]
fn question<'a>(
    alloc: Global,
    at: u32,
    reach: ReachTree,
    tokens: &'a [Token],
    left: u8,
) -> Result<(JmlTree, &'a [Token]), Stop<'a>>
    ensures { Gives jml_tree result (question_in (within_left true left) at (reach_of reach) tokens.now) }
{
    let Some((word, rest)) = first(tokens) else {
        return Err(Stop::Wrong(tokens));
    };
    if asks(word, HAS) {
        let (object, rest) = bracketed(alloc, rest, left)?;
        let tree = trees::has(alloc, at, reach, object)?;
        Ok((tree, rest))
    } else if asks(word, INT_SIZE) {
        let ((), rest) = empty(rest, true, left)?;
        Ok((trees::size(at, reach), rest))
    } else {
        Err(Stop::Wrong(tokens))
    }
}

/// Whether the token is a name of these bytes.
fn asks(token: &Token, bytes: &[u8]) -> bool
    ensures { result ≡ is_word_in bytes.now token.now }
{
    match terminal_at(token, true) {
        Terminal::Name => is_word(token, bytes),
        _ => false,
    }
}
