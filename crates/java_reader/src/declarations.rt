ghost use Rattle.std.specs.Prelude.{◌≡◌, ◌<◌, false, IfOk, length, map};
ghost use Rattle.java_tree.specs.Seen.{decl_tree, java_tree, stmt_tree};
ghost use Rattle.reading_core.specs.Gives.{Gives};
ghost use Rattle.java_reading.specs.StatementReading.{declaration_in, declarations_in, declared_in, local_in, more_declarations_in, value_in};
ghost use Rattle.text_reading.specs.Readers.{arguments_at, expression_at};
ghost use Rattle.java_reader.specs.Items.{comma_declaration_in};

use crate::modifiers::{Modified, modifiers};
use crate::types::kind;
use code_reader::expression;
use java_lex::Token;
use java_reading::{Fixed, fixed, name, next_is};
use java_tree::{DeclTree, JavaTree, StmtTree};
use reading_core::Stop;
use std::alloc::Global;

/// A `=` and a value.
fn value(alloc: Global, left: u8, tokens: &[Token]) -> Result<(JavaTree, &[Token]), Stop<'_>>
    ensures is { Gives java_tree result (value_in expression_at arguments_at left tokens.now) }
    ensures shorter { IfOk result (λ x. length x.1.now < length tokens.now) }
{
    let rest = fixed(tokens, false, Fixed::Assign)?;
    expression(alloc, left, rest)
}

/// A name that is declared, with a value or without.
fn declaration(alloc: Global, left: u8, tokens: &[Token]) -> Result<(DeclTree, &[Token]), Stop<'_>>
    ensures is { Gives decl_tree result (declaration_in expression_at arguments_at left tokens.now) }
    ensures shorter { IfOk result (λ x. length x.1.now < length tokens.now) }
{
    let (name, rest) = name(alloc, tokens, false)?;
    if next_is(rest, false, Fixed::Assign) {
        let (value, rest) = value(alloc, left, rest)?;
        Ok((
            DeclTree {
                name,
                value: Some(value),
            },
            rest,
        ))
    } else {
        Ok((DeclTree { name, value: None }, rest))
    }
}

/// A declaration behind a comma.
fn comma_declaration(
    alloc: Global,
    left: u8,
    tokens: &[Token],
) -> Result<(DeclTree, &[Token]), Stop<'_>>
    ensures is { Gives decl_tree result (comma_declaration_in left tokens.now) }
    ensures shorter { IfOk result (λ x. length x.1.now < length tokens.now) }
{
    let rest = fixed(tokens, false, Fixed::Comma)?;
    declaration(alloc, left, rest)
}

/// One declaration or more, parted by commas. Linear in the tokens that are read.
fn declarations(
    alloc: Global,
    left: u8,
    tokens: &[Token],
) -> Result<(Vec<DeclTree>, &[Token]), Stop<'_>>
    ensures is { Gives (λ v. map decl_tree v.items) result (declarations_in expression_at arguments_at left tokens.now) }
    ensures shorter { IfOk result (λ x. length x.1.now < length tokens.now) }
{
    let (start, behind) = declaration(alloc, left, tokens)?;
    let mut declared = Vec::new(alloc);
    declared.push(start)?;
    let mut rest = behind;
    'more: while next_is(rest, false, Fixed::Comma) {
        let (next, after) = comma_declaration(alloc, left, rest)?;
        declared.push(next)?;
        rest = after;
    }
    Ok((declared, rest))
}

/// The declarations of a statement, and its `;`. Linear in the tokens that are read.
pub(crate) fn declared(
    alloc: Global,
    left: u8,
    tokens: &[Token],
) -> Result<(Vec<DeclTree>, &[Token]), Stop<'_>>
    ensures is { Gives (λ v. map decl_tree v.items) result (declared_in expression_at arguments_at left tokens.now) }
    ensures shorter { IfOk result (λ x. length x.1.now < length tokens.now) }
{
    let (declared, rest) = declarations(alloc, left, tokens)?;
    let rest = fixed(rest, false, Fixed::Semicolon)?;
    Ok((declared, rest))
}

/// A declaration of local variables that begins with modifiers or a type. Linear in the tokens that are read.
pub(crate) fn local(
    alloc: Global,
    left: u8,
    tokens: &[Token],
) -> Result<(StmtTree, &[Token]), Stop<'_>>
    ensures is { Gives stmt_tree result (local_in expression_at arguments_at left tokens.now) }
    ensures shorter { IfOk result (λ x. length x.1.now < length tokens.now) }
{
    let (mods, rest) = modifiers(alloc, Modified::Local, tokens)?;
    let (kind, rest) = kind(alloc, rest)?;
    let (declared, rest) = declared(alloc, left, rest)?;
    Ok((StmtTree::Local(mods, kind, declared), rest))
}
