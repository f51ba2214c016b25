ghost use Rattle.std.specs.Prelude.{◌≡◌, ◌<◌, ◌≤◌, ◌∷◌, false, IfOk, length, map};
ghost use Rattle.java_tree.specs.Trees.{block as block_tree, if_else, if_only, loops};
ghost use Rattle.java_tree.specs.Seen.{java_tree, stmt_tree, stmt_trees};
ghost use Rattle.reading_core.specs.Gives.{Gives};
ghost use Rattle.java_reading.specs.Forms.{begins_statement};
ghost use Rattle.java_reading.specs.Readers.{head};
ghost use Rattle.java_reading.specs.StatementReading.{behind_name_in, block_in, condition_in, else_in, if_in, returned_in, statement_at, statements_in, under_at, while_in};
ghost use Rattle.text_reading.specs.Readers.{arguments_at, expression_at};
ghost use Rattle.java_reader.specs.Code.{headed_at};

use crate::declarations::{declared, local};
use crate::places::{named, reached};
use code_reader::expression;
use java_lex::Token;
use java_reading::{Fixed, Form, Reached, fixed, fixed_at, form_at, lower, next_is, next_is_name};
use java_tree::{JavaNode, JavaTree, StmtTree, TypeTree};
use no_memory::NoMemory;
use reading_core::{Stop, first, ident};
use std::alloc::Global;

/// A condition in its brackets, which open a level.
fn condition(alloc: Global, left: u8, tokens: &[Token]) -> Result<(JavaTree, &[Token]), Stop<'_>>
    ensures is { Gives java_tree result (condition_in expression_at arguments_at left tokens.now) }
    ensures shorter { IfOk result (λ x. length x.1.now < length tokens.now) }
{
    let rest = fixed(tokens, false, Fixed::OpenParen)?;
    let Some(less) = lower(left) else {
        return Err(Stop::Deep(tokens));
    };
    let (condition, rest) = expression(alloc, less, rest)?;
    let rest = fixed(rest, false, Fixed::CloseParen)?;
    Ok((condition, rest))
}

/// A `return`, with a value or without.
fn returned(alloc: Global, left: u8, tokens: &[Token]) -> Result<(StmtTree, &[Token]), Stop<'_>>
    ensures is { Gives stmt_tree result (returned_in expression_at arguments_at left tokens.now) }
    ensures shorter { IfOk result (λ x. length x.1.now < length tokens.now) }
{
    let (at, rest) = fixed_at(tokens, false, Fixed::Return)?;
    if next_is(rest, false, Fixed::Semicolon) {
        let rest = fixed(rest, false, Fixed::Semicolon)?;
        Ok((StmtTree::Return(at, None), rest))
    } else {
        let (value, rest) = expression(alloc, left, rest)?;
        let rest = fixed(rest, false, Fixed::Semicolon)?;
        Ok((StmtTree::Return(at, Some(value)), rest))
    }
}

/// What stands behind a name with which a statement begins: where another name follows, it is the type of a
/// declaration, and else it begins an assignment or a call.
fn behind_name<'a>(
    alloc: Global,
    left: u8,
    token: &Token,
    tokens: &'a [Token],
) -> Result<(StmtTree, &'a [Token]), Stop<'a>>
    ensures is { Gives stmt_tree result (behind_name_in expression_at arguments_at left (under_at expression_at arguments_at left) token.now tokens.now) }
    ensures shorter { IfOk result (λ x. length x.1.now < length tokens.now) }
{
    let name = ident(alloc, token)?;
    if next_is_name(tokens) {
        let (declared, rest) = declared(alloc, left, tokens)?;
        let mods = Vec::new(alloc);
        Ok((StmtTree::Local(mods, TypeTree::Class(name), declared), rest))
    } else {
        named(alloc, left, left, None, name, tokens)
    }
}

/// An `if` without `else`.
fn choice(alloc: Global, condition: JavaTree, chosen: StmtTree) -> Result<StmtTree, NoMemory>
    ensures { IfOk result (λ s. stmt_tree s ≡ if_only (java_tree condition) (stmt_tree chosen)) }
{
    let chosen = Box::new(alloc, chosen)?;
    Ok(StmtTree::If(condition, chosen, None))
}

/// An `if` with `else`.
fn choice_of_two(
    alloc: Global,
    condition: JavaTree,
    chosen: StmtTree,
    other: StmtTree,
) -> Result<StmtTree, NoMemory>
    ensures { IfOk result (λ s. stmt_tree s ≡ if_else (java_tree condition) (stmt_tree chosen) (stmt_tree other)) }
{
    let chosen = Box::new(alloc, chosen)?;
    let other = Box::new(alloc, other)?;
    Ok(StmtTree::If(condition, chosen, Some(other)))
}

/// A `while` at this place.
fn repetition(
    alloc: Global,
    at: u32,
    condition: JavaTree,
    repeated: StmtTree,
) -> Result<StmtTree, NoMemory>
    ensures { IfOk result (λ s. stmt_tree s ≡ loops at (java_tree condition) (stmt_tree repeated)) }
{
    let repeated = Box::new(alloc, repeated)?;
    Ok(StmtTree::While(at, condition, repeated))
}

/// A block.
fn sequence(statements: Vec<StmtTree>) -> StmtTree
    ensures { stmt_tree result ≡ block_tree (stmt_trees statements.items) }
{
    StmtTree::Block(statements)
}

/// Whether a statement begins with the first of the tokens. Takes no memory.
fn next_is_statement(tokens: &[Token]) -> bool
    ensures { result ≡ begins_statement (head tokens.now) }
{
    match first(tokens) {
        Some((token, _behind)) => !matches!(form_at(token), Form::None),
        None => false,
    }
}

/// A statement, where so many levels may be opened in it. Linear in the tokens that are read. (Java Language
/// Specification, "Blocks, Statements, and Patterns".)
#[cycle(statements)]
pub(crate) fn statement(
    alloc: Global,
    left: u8,
    tokens: &[Token],
) -> Result<(StmtTree, &[Token]), Stop<'_>>
    ensures is { Gives stmt_tree result (statement_at expression_at arguments_at left tokens.now) }
    ensures shorter { IfOk result (λ x. length x.1.now < length tokens.now) }
{
    let Some((token, rest)) = first(tokens) else {
        return Err(Stop::Wrong(tokens));
    };
    match form_at(token) {
        Form::Block => block(alloc, left, tokens),
        Form::Blank => Ok((StmtTree::Empty, rest)),
        Form::If => conditional(alloc, left, tokens),
        Form::While => repeated(alloc, left, tokens),
        Form::Return => returned(alloc, left, tokens),
        Form::Local => local(alloc, left, tokens),
        Form::Name => behind_name(alloc, left, token, rest),
        Form::This => {
            let this = JavaTree {
                at: token.from,
                node: JavaNode::This,
            };
            reached(alloc, left, left, Reached::Bare, this, rest)
        }
        Form::None => Err(Stop::Wrong(tokens)),
    }
}

/// The statements up to the first token with which none begins. Linear in the tokens that are read.
#[cycle(statements)]
pub(crate) fn statements(
    alloc: Global,
    left: u8,
    tokens: &[Token],
) -> Result<(Vec<StmtTree>, &[Token]), Stop<'_>>
    ensures is { Gives (λ v. map stmt_tree v.items) result (statements_in expression_at arguments_at left tokens.now) }
    ensures within { IfOk result (λ x. length x.1.now ≤ length tokens.now) }
{
    let mut statements = Vec::new(alloc);
    let mut rest = tokens;
    'more: while next_is_statement(rest) {
        let (next, after) = statement(alloc, left, rest)?;
        statements.push(next)?;
        rest = after;
    }
    Ok((statements, rest))
}

/// A block, which opens a level.
#[cycle(statements)]
fn block(alloc: Global, left: u8, tokens: &[Token]) -> Result<(StmtTree, &[Token]), Stop<'_>>
    ensures is { Gives stmt_tree result (block_in expression_at arguments_at left (under_at expression_at arguments_at left) tokens.now) }
    ensures shorter { IfOk result (λ x. length x.1.now < length tokens.now) }
{
    let rest = fixed(tokens, false, Fixed::OpenBrace)?;
    let Some(less) = lower(left) else {
        return Err(Stop::Deep(tokens));
    };
    let (statements, rest) = statements(alloc, less, rest)?;
    let rest = fixed(rest, false, Fixed::CloseBrace)?;
    Ok((sequence(statements), rest))
}

/// The condition and the statement behind an `if` or a `while`, which opens a level. `tokens` begin with that word.
#[cycle(statements)]
fn headed<'a>(
    alloc: Global,
    left: u8,
    tokens: &'a [Token],
    behind: &'a [Token],
) -> Result<((JavaTree, StmtTree), &'a [Token]), Stop<'a>>
    ensures is { Gives (λ x. (java_tree x.0, stmt_tree x.1)) result (headed_at left tokens.now behind.now) }
    ensures shorter { IfOk result (λ x. length x.1.now < length behind.now) }
{
    let Some(less) = lower(left) else {
        return Err(Stop::Deep(tokens));
    };
    let (condition, rest) = condition(alloc, less, behind)?;
    let (under, rest) = statement(alloc, less, rest)?;
    Ok(((condition, under), rest))
}

/// A `while`.
#[cycle(statements)]
fn repeated(alloc: Global, left: u8, tokens: &[Token]) -> Result<(StmtTree, &[Token]), Stop<'_>>
    ensures is { Gives stmt_tree result (while_in expression_at arguments_at left (under_at expression_at arguments_at left) tokens.now) }
    ensures shorter { IfOk result (λ x. length x.1.now < length tokens.now) }
{
    let (at, behind) = fixed_at(tokens, false, Fixed::While)?;
    let ((condition, under), rest) = headed(alloc, left, tokens, behind)?;
    let tree = repetition(alloc, at, condition, under)?;
    Ok((tree, rest))
}

/// An `if`; an `else` behind it is its own.
#[cycle(statements)]
fn conditional(alloc: Global, left: u8, tokens: &[Token]) -> Result<(StmtTree, &[Token]), Stop<'_>>
    ensures is { Gives stmt_tree result (if_in expression_at arguments_at left (under_at expression_at arguments_at left) tokens.now) }
    ensures shorter { IfOk result (λ x. length x.1.now < length tokens.now) }
{
    let behind = fixed(tokens, false, Fixed::If)?;
    let ((condition, chosen), rest) = headed(alloc, left, tokens, behind)?;
    if next_is(rest, false, Fixed::Else) {
        let (other, rest) = alternative(alloc, left, rest)?;
        let tree = choice_of_two(alloc, condition, chosen, other)?;
        Ok((tree, rest))
    } else {
        let tree = choice(alloc, condition, chosen)?;
        Ok((tree, rest))
    }
}

/// An `else` and its statement; it opens a level.
#[cycle(statements)]
fn alternative(alloc: Global, left: u8, tokens: &[Token]) -> Result<(StmtTree, &[Token]), Stop<'_>>
    ensures is { Gives stmt_tree result (else_in expression_at arguments_at left (under_at expression_at arguments_at left) tokens.now) }
    ensures shorter { IfOk result (λ x. length x.1.now < length tokens.now) }
{
    let rest = fixed(tokens, false, Fixed::Else)?;
    let Some(less) = lower(left) else {
        return Err(Stop::Deep(tokens));
    };
    statement(alloc, less, rest)
}
