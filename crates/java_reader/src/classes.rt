ghost use Rattle.std.specs.Prelude.{◌≡◌, ◌<◌, ◌≤◌, ◌++◌, false, IfOk, OnOk, length, map};
ghost use Rattle.std.specs.List.{flat_map};
ghost use Rattle.java_tree.specs.Members.{parts_of};
ghost use Rattle.java_tree.specs.Trees.{field as field_tree};
ghost use Rattle.java_tree.specs.Seen.{class_tree, part_tree};
ghost use Rattle.reading_core.specs.Gives.{Gives};
ghost use Rattle.java_reading.specs.Readers.{give, head};
ghost use Rattle.java_reading.specs.PartForms.{begins_part};
ghost use Rattle.java_reading.specs.MemberReading.{begins_class, class_in, classes_in, members_in};
ghost use Rattle.text_reading.specs.Readers.{arguments_at, expression_at, predicate_at};
ghost use Rattle.java_reader.specs.Seen.{declared_seen};

use crate::members::{Declared, member};
use crate::modifiers::{Modified, is_modifier, modifiers};
use java_lex::{Lexeme, Token};
use java_reading::{Fixed, PartForm, fixed, name, next_is, part_form_at};
use java_tree::{ClassTree, Ident, Member, Modifier, TypeTree};
use no_memory::NoMemory;
use reading_core::{Stop, first};
use std::alloc::Global;

/// The same name. Linear in its bytes.
fn copied_name(alloc: Global, name: &Ident) -> Result<Ident, NoMemory>
    ensures { IfOk result (λ i. i ≡ name.now) }
{
    let text = Lexeme::new(alloc, name.text.bytes())?;
    Ok(Ident { text, at: name.at })
}

/// The same type.
fn copied_kind(alloc: Global, kind: &TypeTree) -> Result<TypeTree, NoMemory>
    ensures { IfOk result (λ k. k ≡ kind.now) }
{
    match kind {
        TypeTree::Int => Ok(TypeTree::Int),
        TypeTree::Flag => Ok(TypeTree::Flag),
        TypeTree::Class(name) => {
            let name = copied_name(alloc, name)?;
            Ok(TypeTree::Class(name))
        }
    }
}

/// A field with these modifiers and this type.
fn field(alloc: Global, mods: &[Modifier], kind: &TypeTree, name: Ident) -> Result<Member, NoMemory>
    ensures { IfOk result (λ m. part_tree m ≡ field_tree mods.now kind.now name) }
{
    let mods = Vec::from_slice(alloc, mods)?;
    let kind = copied_kind(alloc, kind)?;
    Ok(Member::Field(mods, kind, name))
}

/// Adds a field for each of the names.
fn push_fields(
    alloc: Global,
    members: &mut Vec<Member>,
    mods: &[Modifier],
    kind: &TypeTree,
    names: Vec<Ident>,
) -> Result<(), NoMemory>
    ensures { OnOk result (map part_tree members.new.items ≡ map part_tree members.old.items ++ map (field_tree mods.now kind.now) names.items) }
{
    for name in names {
        let next = field(alloc, mods, kind, name)?;
        members.push(next)?;
    }
    Ok(())
}

/// Adds the members that a declaration is: none, one, or a field for each name.
fn push_parts(alloc: Global, members: &mut Vec<Member>, declared: Declared) -> Result<(), NoMemory>
    ensures { OnOk result (map part_tree members.new.items ≡ map part_tree members.old.items ++ parts_of (declared_seen declared)) }
{
    match declared {
        Declared::Nothing => Ok(()),
        Declared::One(member) => {
            members.push(member)?;
            Ok(())
        }
        Declared::Fields(mods, kind, name, more) => {
            let start = field(alloc, mods.as_slice(), &kind, name)?;
            members.push(start)?;
            push_fields(alloc, members, mods.as_slice(), &kind, more)
        }
    }
}

/// Whether a member begins with the first of the tokens.
fn next_is_member(tokens: &[Token]) -> bool
    ensures { result ≡ begins_part (head tokens.now) }
{
    match first(tokens) {
        Some((token, _behind)) => !matches!(part_form_at(token), PartForm::None),
        None => false,
    }
}

/// The members up to the first token with which none begins. Linear in the tokens that are read, and in the members
/// times the modifiers of a declaration of several fields.
fn members(alloc: Global, left: u8, tokens: &[Token]) -> Result<(Vec<Member>, &[Token]), Stop<'_>>
    ensures is { Gives (λ v. map part_tree v.items) result (give (flat_map parts_of) (members_in expression_at arguments_at predicate_at left tokens.now)) }
    ensures within { IfOk result (λ x. length x.1.now ≤ length tokens.now) }
{
    let mut members = Vec::new(alloc);
    let mut rest = tokens;
    'more: while next_is_member(rest) {
        let (next, after) = member(alloc, left, rest)?;
        push_parts(alloc, &mut members, next)?;
        rest = after;
    }
    Ok((members, rest))
}

/// A class. Linear in the tokens that are read. (Java Language Specification, "Classes".)
fn class(alloc: Global, left: u8, tokens: &[Token]) -> Result<(ClassTree, &[Token]), Stop<'_>>
    ensures is { Gives class_tree result (class_in expression_at arguments_at predicate_at left tokens.now) }
    ensures shorter { IfOk result (λ x. length x.1.now < length tokens.now) }
{
    let (mods, rest) = modifiers(alloc, Modified::Class, tokens)?;
    let rest = fixed(rest, false, Fixed::Class)?;
    let (name, rest) = name(alloc, rest, false)?;
    let rest = fixed(rest, false, Fixed::OpenBrace)?;
    let (members, rest) = members(alloc, left, rest)?;
    let rest = fixed(rest, false, Fixed::CloseBrace)?;
    Ok((
        ClassTree {
            mods,
            name,
            members,
        },
        rest,
    ))
}

/// Whether a class begins with the first of the tokens.
fn next_is_class(tokens: &[Token]) -> bool
    ensures { result ≡ begins_class expression_at arguments_at predicate_at 64 (head tokens.now) }
{
    match first(tokens) {
        Some((token, _behind)) => {
            is_modifier(Modified::Class, token) || next_is(tokens, false, Fixed::Class)
        }
        None => false,
    }
}

/// One class or more. Linear in the tokens that are read.
pub(crate) fn classes(
    alloc: Global,
    left: u8,
    tokens: &[Token],
) -> Result<(Vec<ClassTree>, &[Token]), Stop<'_>>
    ensures is { Gives (λ v. map class_tree v.items) result (classes_in expression_at arguments_at predicate_at left tokens.now) }
    ensures shorter { IfOk result (λ x. length x.1.now < length tokens.now) }
{
    let (start, behind) = class(alloc, left, tokens)?;
    let mut classes = Vec::new(alloc);
    classes.push(start)?;
    let mut rest = behind;
    'more: while next_is_class(rest) {
        let (next, after) = class(alloc, left, rest)?;
        classes.push(next)?;
        rest = after;
    }
    Ok((classes, rest))
}
