ghost use Rattle.std.specs.Prelude.{◌≡◌, [], ◌∷◌, ◌++◌, false, map, option_map, OnOk};
ghost use Rattle.java_tree.specs.Seen.{decl_tree, java_tree, stmt_tree, stmt_trees};
ghost use Rattle.java_tree.specs.Print.{block_written, condition_written, decl_written, decls_written, modifier_word, modifiers_written, returned_written, stepped_text as stepped_text_lem, stmt_written, stmts_written, type_text as type_text_lem, symbol, value_written, word, written};

use crate::expressions::JavaTree;
use crate::names::{ModWord, Modifier, TypeTree};
use crate::print_code::push_java;
use crate::printed::{Printed, push_symbol, push_word};
use crate::statements::{DeclTree, StmtTree};
use java_lex::words::{
    ASSIGN, BOOLEAN, CLOSE_BRACE, CLOSE_PAREN, COMMA, DECREMENT, ELSE, IF, INCREMENT, INT,
    NON_NULL, NON_NULL_BY_DEFAULT, NULLABLE, NULLABLE_BY_DEFAULT, OPEN_BRACE, OPEN_PAREN, RETURN,
    SEMICOLON, STATIC, WHILE,
};
use no_memory::NoMemory;

fn push_modifier(words: &mut Vec<Printed<'_>>, word: ModWord) -> Result<(), NoMemory>
    ensures { OnOk result (words.new.items ≡ words.old.items ++ modifier_word word ∷ []) }
{
    match word {
        ModWord::Static => push_word(words, false, STATIC),
        ModWord::Nullable => push_word(words, true, NULLABLE),
        ModWord::NonNull => push_word(words, true, NON_NULL),
        ModWord::NullableByDefault => push_word(words, true, NULLABLE_BY_DEFAULT),
        ModWord::NonNullByDefault => push_word(words, true, NON_NULL_BY_DEFAULT),
    }
}

/// Adds the modifiers.
pub(crate) fn push_modifiers(
    words: &mut Vec<Printed<'_>>,
    mods: &[Modifier],
) -> Result<(), NoMemory>
    ensures { OnOk result (words.new.items ≡ words.old.items ++ modifiers_written mods.now) }
{
    for modifier in mods {
        push_modifier(words, modifier.word)?;
    }
    Ok(())
}

pub(crate) fn type_text(kind: &TypeTree) -> &[u8]
    ensures { result.now ≡ type_text_lem kind.now }
{
    match kind {
        TypeTree::Int => INT,
        TypeTree::Flag => BOOLEAN,
        TypeTree::Class(name) => name.text.bytes(),
    }
}

fn push_value<'a>(words: &mut Vec<Printed<'a>>, value: &'a Option<JavaTree>) -> Result<(), NoMemory>
    ensures { OnOk result (words.new.items ≡ words.old.items ++ value_written (option_map java_tree value.now)) }
{
    match value {
        None => Ok(()),
        Some(value) => {
            push_symbol(words, false, ASSIGN)?;
            push_java(words, value)
        }
    }
}

fn push_decl<'a>(words: &mut Vec<Printed<'a>>, decl: &'a DeclTree) -> Result<(), NoMemory>
    ensures { OnOk result (words.new.items ≡ words.old.items ++ decl_written (decl_tree decl.now)) }
{
    push_word(words, false, decl.name.text.bytes())?;
    push_value(words, &decl.value)
}

/// Adds declarations, parted by commas.
fn push_decls<'a>(words: &mut Vec<Printed<'a>>, decls: &'a [DeclTree]) -> Result<(), NoMemory>
    ensures { OnOk result (words.new.items ≡ words.old.items ++ decls_written (map decl_tree decls.now)) }
{
    let [first, more @ ..] = decls else {
        return Ok(());
    };
    push_decl(words, first)?;
    for decl in more {
        push_symbol(words, false, COMMA)?;
        push_decl(words, decl)?;
    }
    Ok(())
}

/// Adds a condition in brackets behind its word.
fn push_condition<'a>(
    words: &mut Vec<Printed<'a>>,
    head: &'a [u8],
    condition: &'a JavaTree,
) -> Result<(), NoMemory>
    ensures { OnOk result (words.new.items ≡ words.old.items ++ (word false head.now ++ condition_written (java_tree condition.now))) }
{
    push_word(words, false, head)?;
    push_symbol(words, false, OPEN_PAREN)?;
    push_java(words, condition)?;
    push_symbol(words, false, CLOSE_PAREN)
}

fn push_returned<'a>(
    words: &mut Vec<Printed<'a>>,
    value: &'a Option<JavaTree>,
) -> Result<(), NoMemory>
    ensures { OnOk result (words.new.items ≡ words.old.items ++ (word false RETURN.now ++ returned_written (option_map java_tree value.now) ++ symbol false SEMICOLON.now)) }
{
    push_word(words, false, RETURN)?;
    if let Some(value) = value {
        push_java(words, value)?;
    }
    push_symbol(words, false, SEMICOLON)
}

fn push_local<'a>(
    words: &mut Vec<Printed<'a>>,
    mods: &[Modifier],
    kind: &'a TypeTree,
    decls: &'a [DeclTree],
) -> Result<(), NoMemory>
    ensures { OnOk result (words.new.items ≡ words.old.items ++ (modifiers_written mods.now ++ word false (type_text_lem kind.now) ++ decls_written (map decl_tree decls.now) ++ symbol false SEMICOLON.now)) }
{
    push_modifiers(words, mods)?;
    push_word(words, false, type_text(kind))?;
    push_decls(words, decls)?;
    push_symbol(words, false, SEMICOLON)
}

fn stepped_text(up: bool) -> &'static [u8]
    ensures { result.now ≡ stepped_text_lem up }
{
    if up { INCREMENT } else { DECREMENT }
}

/// Adds the tokens of a statement.
#[cycle(statements)]
pub(crate) fn push_stmt<'a>(
    words: &mut Vec<Printed<'a>>,
    stmt: &'a StmtTree,
) -> Result<(), NoMemory>
    ensures { OnOk result (words.new.items ≡ words.old.items ++ stmt_written (stmt_tree stmt.now)) }
{
    match stmt {
        StmtTree::Block(stmts) => push_block(words, stmts.as_slice()),
        StmtTree::Empty => push_symbol(words, false, SEMICOLON),
        StmtTree::If(condition, then, other) => {
            push_condition(words, IF, condition)?;
            push_stmt(words, then)?;
            match other {
                None => Ok(()),
                Some(other) => {
                    push_word(words, false, ELSE)?;
                    push_stmt(words, other)
                }
            }
        }
        StmtTree::While(_, condition, body) => {
            push_condition(words, WHILE, condition)?;
            push_stmt(words, body)
        }
        StmtTree::Return(_, value) => push_returned(words, value),
        StmtTree::Local(mods, kind, decls) => push_local(
            words,
            mods.as_slice(),
            kind,
            decls.as_slice(),
        ),
        StmtTree::Set(target, value) => {
            push_java(words, target)?;
            push_symbol(words, false, ASSIGN)?;
            push_java(words, value)?;
            push_symbol(words, false, SEMICOLON)
        }
        StmtTree::Step(target, up) => {
            push_java(words, target)?;
            push_symbol(words, false, stepped_text(*up))?;
            push_symbol(words, false, SEMICOLON)
        }
        StmtTree::Run(call) => {
            push_java(words, call)?;
            push_symbol(words, false, SEMICOLON)
        }
    }
}

/// Adds statements in braces.
#[cycle(statements)]
pub(crate) fn push_block<'a>(
    words: &mut Vec<Printed<'a>>,
    stmts: &'a [StmtTree],
) -> Result<(), NoMemory>
    ensures { OnOk result (words.new.items ≡ words.old.items ++ block_written (stmts_written (stmt_trees stmts.now))) }
{
    push_symbol(words, false, OPEN_BRACE)?;
    for stmt in stmts {
        push_stmt(words, stmt)?;
    }
    push_symbol(words, false, CLOSE_BRACE)
}
