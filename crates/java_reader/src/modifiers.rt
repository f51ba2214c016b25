ghost use Rattle.std.specs.Prelude.{◌≡◌, ◌≤◌, ◌==◌, ◌++◌, ◌∷◌, true, false, IfOk, OnOk, MatchOption, filter, length};
ghost use Rattle.java_tree.specs.Phrases.{letter};
ghost use Rattle.java_tree.specs.Statements.{in_order as in_order_lem, is_local_modifier, kept as kept_lem, kept_word as kept_word_lem, rank as rank_lem};
ghost use Rattle.java_tree.specs.Members.{is_class_modifier, is_method_modifier};
ghost use Rattle.reading_core.specs.Read.{Got};
ghost use Rattle.java_reading.specs.Readers.{head};
ghost use Rattle.java_reading.specs.StatementReading.{modifiers_in};
ghost use Rattle.java_reader.specs.Modifiers.{allowed_at, begins_modifier};

use java_lex::{Terminal, Token};
use java_tree::{ModWord, Modifier};
use no_memory::NoMemory;
use reading_core::first;
use std::alloc::{AllocError, AllocFailed, Global};

/// What modifiers stand before.
#[derive(Clone, Copy)]
pub(crate) enum Modified {
    /// A local variable or a parameter.
    Local,
    /// A field or a method.
    Member,
    Class,
}

fn is_of_local(jml: bool, terminal: Terminal) -> bool
    ensures { result ≡ is_local_modifier (jml, terminal) }
{
    match (jml, terminal) {
        (false, Terminal::Final) => true,
        (true, Terminal::Nullable | Terminal::NonNull) => true,
        _ => false,
    }
}

fn is_of_member(jml: bool, terminal: Terminal) -> bool
    ensures { result ≡ is_method_modifier (jml, terminal) }
{
    match (jml, terminal) {
        (
            false,
            Terminal::Static
            | Terminal::Public
            | Terminal::Protected
            | Terminal::Private
            | Terminal::Final,
        ) => true,
        (
            true,
            Terminal::SpecPublic | Terminal::SpecProtected | Terminal::Nullable | Terminal::NonNull,
        ) => true,
        _ => false,
    }
}

fn is_of_class(jml: bool, terminal: Terminal) -> bool
    ensures { result ≡ is_class_modifier (jml, terminal) }
{
    match (jml, terminal) {
        (false, Terminal::Public | Terminal::Final) => true,
        (true, Terminal::NullableByDefault | Terminal::NonNullByDefault | Terminal::SpecPublic) =>
            true,
        _ => false,
    }
}

/// Whether the token is a modifier that may stand there. Takes no memory.
pub(crate) fn is_modifier(modified: Modified, token: &Token) -> bool
    ensures { result ≡ allowed_at modified (letter token.now) }
{
    match modified {
        Modified::Local => is_of_local(token.jml, token.terminal()),
        Modified::Member => is_of_member(token.jml, token.terminal()),
        Modified::Class => is_of_class(token.jml, token.terminal()),
    }
}

/// The first of the tokens and those behind it, if it is a modifier that may stand there.
fn next_modifier(modified: Modified, tokens: &[Token]) -> Option<(&Token, &[Token])>
    ensures { MatchOption result (begins_modifier modified (head tokens.now) ≡ false) (λ p. (tokens.now ≡ p.0.now ∷ p.1.now) × (allowed_at modified (letter p.0.now) ≡ true)) }
{
    let (token, rest) = first(tokens)?;
    if is_modifier(modified, token) {
        Some((token, rest))
    } else {
        None
    }
}

fn kept_word(jml: bool, terminal: Terminal) -> Option<ModWord>
    ensures { result ≡ kept_word_lem (jml, terminal) }
{
    match (jml, terminal) {
        (false, Terminal::Static) => Some(ModWord::Static),
        (true, Terminal::Nullable) => Some(ModWord::Nullable),
        (true, Terminal::NonNull) => Some(ModWord::NonNull),
        (true, Terminal::NullableByDefault) => Some(ModWord::NullableByDefault),
        (true, Terminal::NonNullByDefault) => Some(ModWord::NonNullByDefault),
        _ => None,
    }
}

/// The modifier that the token is, if a tree keeps it.
fn kept(token: &Token) -> Option<Modifier>
    ensures { result ≡ kept_lem token.now }
{
    let word = kept_word(token.jml, token.terminal())?;
    Some(Modifier {
        word,
        at: token.from,
    })
}

/// The place of the word in the order of a tree.
fn rank(word: ModWord) -> u8
    ensures { result ≡ rank_lem word }
{
    match word {
        ModWord::Static => 0,
        ModWord::Nullable => 1,
        ModWord::NonNull => 2,
        ModWord::NullableByDefault => 3,
        ModWord::NonNullByDefault => 4,
    }
}

/// Adds those of the modifiers that are this word.
fn push_of(
    ordered: &mut Vec<Modifier>,
    modifiers: &[Modifier],
    word: ModWord,
) -> Result<(), NoMemory>
    ensures { OnOk result (ordered.new.items ≡ ordered.old.items ++ filter (λ m. rank_lem m.word == rank_lem word) modifiers.now) }
{
    for modifier in modifiers {
        if rank(modifier.word) == rank(word) {
            ordered.push(*modifier)?;
        }
    }
    Ok(())
}

/// The modifiers in the order in which a tree keeps them.
fn in_order(alloc: Global, modifiers: &[Modifier]) -> Result<Vec<Modifier>, NoMemory>
    ensures { IfOk result (λ v. v.items ≡ in_order_lem modifiers.now) }
{
    let mut ordered = Vec::new(alloc);
    push_of(&mut ordered, modifiers, ModWord::Static)?;
    push_of(&mut ordered, modifiers, ModWord::Nullable)?;
    push_of(&mut ordered, modifiers, ModWord::NonNull)?;
    push_of(&mut ordered, modifiers, ModWord::NullableByDefault)?;
    push_of(&mut ordered, modifiers, ModWord::NonNullByDefault)?;
    Ok(ordered)
}

/// The modifiers that a tree keeps of the longest front of the tokens that is of modifiers, and the tokens behind
/// it. Linear in that front.
pub(crate) fn modifiers(
    alloc: Global,
    modified: Modified,
    tokens: &[Token],
) -> Result<(Vec<Modifier>, &[Token]), NoMemory>
    ensures is { IfOk result (λ x. modifiers_in (allowed_at modified) tokens.now ≡ Got x.0.items x.1.now) }
    ensures within { IfOk result (λ x. length x.1.now ≤ length tokens.now) }
{
    let mut gathered = Vec::new(alloc);
    let mut rest = tokens;
    'front: while let Some((token, behind)) = next_modifier(modified, rest) {
        if let Some(modifier) = kept(token) {
            gathered.push(modifier)?;
        }
        rest = behind;
    }
    let ordered = in_order(alloc, gathered.as_slice())?;
    Ok((ordered, rest))
}
