ghost use Rattle.std.specs.Prelude.{◌≡◌, ◌<◌, ◌≤◌, ◌++◌, true, false, IfOk, OnOk, length, map};
ghost use Rattle.java_tree.specs.Members.{fields as fields_tree};
ghost use Rattle.java_tree.specs.Seen.{clause_tree, param_tree, part_tree, stmt_tree};
ghost use Rattle.reading_core.specs.Gives.{Gives};
ghost use Rattle.java_reading.specs.Readers.{give};
ghost use Rattle.java_reading.specs.MemberReading.{body_in, declared_part_in, has_static as has_static_lem, invariant_in, is_static as is_static_lem, member_in, method_in, named_part_in, names_in, normal_in, result_in, specified_in, visible_in};
ghost use Rattle.text_reading.specs.Readers.{arguments_at, expression_at, predicate_at};
ghost use Rattle.java_reader.specs.Items.{comma_name_in, more_names_in};
ghost use Rattle.java_reader.specs.Seen.{declared_seen};

use crate::clauses::clauses;
use crate::modifiers::{Modified, modifiers};
use crate::parameters::parameters;
use crate::statements::statements;
use crate::types::kind;
use java_lex::{Terminal, Token};
use java_reading::{Fixed, PartForm, fixed, fixed_at, name, next_is, part_form_at};
use java_tree::{
    Ident, Member, MethodTree, ModWord, Modifier, ParamTree, SpecTree, StmtTree, TypeTree,
};
use jml_reader::predicate;
use no_memory::NoMemory;
use reading_core::{Stop, first, terminal_at};
use std::alloc::Global;

/// A member as it is written.
#[derive(Drop)]
pub(crate) enum Declared {
    /// `;` alone.
    Nothing,
    One(Member),
    /// Fields of one declaration: their modifiers and type, the first name, and the others.
    Fields(Vec<Modifier>, TypeTree, Ident, Vec<Ident>),
}

/// A name behind a comma.
fn comma_name(alloc: Global, tokens: &[Token]) -> Result<(Ident, &[Token]), Stop<'_>>
    ensures is { Gives (λ i. i) result (comma_name_in tokens.now) }
    ensures shorter { IfOk result (λ x. length x.1.now < length tokens.now) }
{
    let rest = fixed(tokens, false, Fixed::Comma)?;
    name(alloc, rest, false)
}

/// The further names of a declaration of fields. Linear in the tokens that are read.
fn more_names(alloc: Global, tokens: &[Token]) -> Result<(Vec<Ident>, &[Token]), Stop<'_>>
    ensures is { Gives (λ v. v.items) result (more_names_in tokens.now) }
    ensures within { IfOk result (λ x. length x.1.now ≤ length tokens.now) }
{
    let mut names = Vec::new(alloc);
    let mut rest = tokens;
    'more: while next_is(rest, false, Fixed::Comma) {
        let (next, after) = comma_name(alloc, rest)?;
        names.push(next)?;
        rest = after;
    }
    Ok((names, rest))
}

/// What stands behind the first name of a declaration of fields: the other names, and the `;`.
fn names(alloc: Global, tokens: &[Token]) -> Result<(Vec<Ident>, &[Token]), Stop<'_>>
    ensures is { Gives (λ v. v.items) result (names_in tokens.now) }
    ensures shorter { IfOk result (λ x. length x.1.now < length tokens.now) }
{
    let (names, rest) = more_names(alloc, tokens)?;
    let rest = fixed(rest, false, Fixed::Semicolon)?;
    Ok((names, rest))
}

/// The result of a method or the type of fields; none is `void`.
fn outcome(alloc: Global, tokens: &[Token]) -> Result<(Option<TypeTree>, &[Token]), Stop<'_>>
    ensures is { Gives (λ o. o) result (result_in tokens.now) }
    ensures shorter { IfOk result (λ x. length x.1.now < length tokens.now) }
{
    let Some((token, rest)) = first(tokens) else {
        return Err(Stop::Wrong(tokens));
    };
    match terminal_at(token, false) {
        Terminal::Void => Ok((None, rest)),
        _ => {
            let (kind, rest) = kind(alloc, tokens)?;
            Ok((Some(kind), rest))
        }
    }
}

/// The parameters and the body of a method. The levels are counted anew in it.
fn body(
    alloc: Global,
    left: u8,
    tokens: &[Token],
) -> Result<((Vec<ParamTree>, Vec<StmtTree>), &[Token]), Stop<'_>>
    ensures is { Gives (λ x. (map param_tree x.0.items, map stmt_tree x.1.items)) result (body_in expression_at arguments_at predicate_at left tokens.now) }
    ensures shorter { IfOk result (λ x. length x.1.now < length tokens.now) }
{
    let rest = fixed(tokens, false, Fixed::OpenParen)?;
    let (parameters, rest) = parameters(alloc, rest)?;
    let rest = fixed(rest, false, Fixed::CloseParen)?;
    let rest = fixed(rest, false, Fixed::OpenBrace)?;
    let (statements, rest) = statements(alloc, left, rest)?;
    let rest = fixed(rest, false, Fixed::CloseBrace)?;
    Ok(((parameters, statements), rest))
}

/// What stands of a member between its specification and what follows its name; no outcome is `void`.
#[derive(Drop)]
struct Signature {
    mods: Vec<Modifier>,
    outcome: Option<TypeTree>,
    name: Ident,
}

/// A method, behind its name.
fn method(
    alloc: Global,
    left: u8,
    spec: Vec<SpecTree>,
    signature: Signature,
    tokens: &[Token],
) -> Result<(Declared, &[Token]), Stop<'_>>
    ensures is { Gives declared_seen result (method_in expression_at arguments_at predicate_at left (map clause_tree spec.items) signature.mods.items signature.outcome signature.name tokens.now) }
    ensures shorter { IfOk result (λ x. length x.1.now < length tokens.now) }
{
    let ((params, body), rest) = body(alloc, left, tokens)?;
    let Signature {
        mods,
        outcome,
        name,
    } = signature;
    let method = MethodTree {
        spec,
        mods,
        result: outcome,
        name,
        params,
        body,
    };
    Ok((Declared::One(Member::Method(method)), rest))
}

fn is_static(word: ModWord) -> bool
    ensures { result ≡ is_static_lem word }
{
    match word {
        ModWord::Static => true,
        ModWord::Nullable
        | ModWord::NonNull
        | ModWord::NullableByDefault
        | ModWord::NonNullByDefault => false,
    }
}

/// Whether `static` is among the modifiers, which no field has.
fn has_static(mods: &[Modifier]) -> bool
    ensures { result ≡ has_static_lem mods.now }
{
    mods.iter().any(|m| is_static(m.word))
}

/// Fields, behind the first of their names.
fn fields(
    alloc: Global,
    mods: Vec<Modifier>,
    kind: TypeTree,
    name: Ident,
    tokens: &[Token],
) -> Result<(Declared, &[Token]), Stop<'_>>
    ensures is { Gives declared_seen result (give (fields_tree mods.items kind name) (names_in tokens.now)) }
    ensures shorter { IfOk result (λ x. length x.1.now < length tokens.now) }
{
    let (more, rest) = names(alloc, tokens)?;
    Ok((Declared::Fields(mods, kind, name, more), rest))
}

/// Fields or a method, behind the name; `specified`: a specification stands before it, so it is a method.
fn named_part(
    alloc: Global,
    left: u8,
    specified: bool,
    spec: Vec<SpecTree>,
    signature: Signature,
    tokens: &[Token],
) -> Result<(Declared, &[Token]), Stop<'_>>
    ensures is { Gives declared_seen result (named_part_in expression_at arguments_at predicate_at left specified (map clause_tree spec.items) signature.mods.items signature.outcome signature.name tokens.now) }
    ensures shorter { IfOk result (λ x. length x.1.now < length tokens.now) }
{
    let Signature {
        mods,
        outcome,
        name,
    } = signature;
    match outcome {
        None => {
            let signature = Signature {
                mods,
                outcome: None,
                name,
            };
            method(alloc, left, spec, signature, tokens)
        }
        Some(kind) => {
            if specified
                || has_static(mods.as_slice())
                || next_is(tokens, false, Fixed::OpenParen)
            {
                let signature = Signature {
                    mods,
                    outcome: Some(kind),
                    name,
                };
                method(alloc, left, spec, signature, tokens)
            } else {
                fields(alloc, mods, kind, name, tokens)
            }
        }
    }
}

/// Fields or a method, behind the specification.
fn declared_part(
    alloc: Global,
    left: u8,
    specified: bool,
    spec: Vec<SpecTree>,
    tokens: &[Token],
) -> Result<(Declared, &[Token]), Stop<'_>>
    ensures is { Gives declared_seen result (declared_part_in expression_at arguments_at predicate_at left specified (map clause_tree spec.items) tokens.now) }
    ensures shorter { IfOk result (λ x. length x.1.now < length tokens.now) }
{
    let (mods, rest) = modifiers(alloc, Modified::Member, tokens)?;
    let (outcome, rest) = outcome(alloc, rest)?;
    let (name, rest) = name(alloc, rest, false)?;
    let signature = Signature {
        mods,
        outcome,
        name,
    };
    named_part(alloc, left, specified, spec, signature, rest)
}

/// A method whose specification begins with `normal_behavior`.
fn normal(alloc: Global, left: u8, tokens: &[Token]) -> Result<(Declared, &[Token]), Stop<'_>>
    ensures is { Gives declared_seen result (normal_in expression_at arguments_at predicate_at left tokens.now) }
    ensures shorter { IfOk result (λ x. length x.1.now < length tokens.now) }
{
    let rest = fixed(tokens, true, Fixed::NormalBehavior)?;
    let (spec, rest) = clauses(alloc, left, rest)?;
    declared_part(alloc, left, true, spec, rest)
}

/// A method whose specification begins with a clause.
fn specified(alloc: Global, left: u8, tokens: &[Token]) -> Result<(Declared, &[Token]), Stop<'_>>
    ensures is { Gives declared_seen result (specified_in expression_at arguments_at predicate_at left tokens.now) }
    ensures shorter { IfOk result (λ x. length x.1.now < length tokens.now) }
{
    let (spec, rest) = clauses(alloc, left, tokens)?;
    declared_part(alloc, left, true, spec, rest)
}

/// An invariant, with its `;`. (JML Reference Manual, "Type Specifications".)
fn invariant(alloc: Global, left: u8, tokens: &[Token]) -> Result<(Declared, &[Token]), Stop<'_>>
    ensures is { Gives declared_seen result (invariant_in expression_at arguments_at predicate_at left tokens.now) }
    ensures shorter { IfOk result (λ x. length x.1.now < length tokens.now) }
{
    let (at, rest) = fixed_at(tokens, true, Fixed::Invariant)?;
    let (condition, rest) = predicate(alloc, left, rest)?;
    let rest = fixed(rest, true, Fixed::Semicolon)?;
    Ok((Declared::One(Member::Invariant(at, condition)), rest))
}

/// What stands behind a visibility in an annotation: an invariant or a method.
fn visible(alloc: Global, left: u8, tokens: &[Token]) -> Result<(Declared, &[Token]), Stop<'_>>
    ensures is { Gives declared_seen result (visible_in expression_at arguments_at predicate_at left tokens.now) }
    ensures shorter { IfOk result (λ x. length x.1.now < length tokens.now) }
{
    if next_is(tokens, true, Fixed::Invariant) {
        invariant(alloc, left, tokens)
    } else {
        normal(alloc, left, tokens)
    }
}

/// A member of a class. Linear in the tokens that are read.
pub(crate) fn member(
    alloc: Global,
    left: u8,
    tokens: &[Token],
) -> Result<(Declared, &[Token]), Stop<'_>>
    ensures is { Gives declared_seen result (member_in expression_at arguments_at predicate_at left tokens.now) }
    ensures shorter { IfOk result (λ x. length x.1.now < length tokens.now) }
{
    let Some((token, rest)) = first(tokens) else {
        return Err(Stop::Wrong(tokens));
    };
    match part_form_at(token) {
        PartForm::Empty => Ok((Declared::Nothing, rest)),
        PartForm::Visible => visible(alloc, left, rest),
        PartForm::Invariant => invariant(alloc, left, tokens),
        PartForm::Normal => normal(alloc, left, tokens),
        PartForm::Clause => specified(alloc, left, tokens),
        PartForm::Plain => {
            let spec = Vec::new(alloc);
            declared_part(alloc, left, false, spec, tokens)
        }
        PartForm::None => Err(Stop::Wrong(tokens)),
    }
}
