ghost use Rattle.std.specs.Prelude.{◌≡◌, ◌++◌, true, false, map, OnOk};
ghost use Rattle.std.specs.List.{flat_map};
ghost use Rattle.java_tree.specs.Seen.{class_tree, clause_tree, jml_tree, method_tree, param_tree, part_tree};
ghost use Rattle.java_tree.specs.Print.{block_written, class_written, clause_written, head_written, method_written, param_written, params_written, part_written, predicate_written, result_text as result_text_lem, tree_written};

use crate::clauses::JmlTree;
use crate::members::{ClassTree, Member, MethodTree, ParamTree, SpecTree};
use crate::names::{Ident, TypeTree};
use crate::print_clauses::push_jml;
use crate::print_statements::{push_block, push_modifiers, type_text};
use crate::printed::{Printed, push_symbol, push_word};
use java_lex::words::{
    CLASS, CLOSE_BRACE, CLOSE_PAREN, COMMA, ENSURES, INVARIANT, OPEN_BRACE, OPEN_PAREN, REQUIRES,
    SEMICOLON, VOID,
};
use no_memory::NoMemory;

/// Adds a clause behind its word.
fn push_predicate<'a>(
    words: &mut Vec<Printed<'a>>,
    head: &'a [u8],
    tree: &'a JmlTree,
) -> Result<(), NoMemory>
    ensures { OnOk result (words.new.items ≡ words.old.items ++ predicate_written head.now (jml_tree tree.now)) }
{
    push_word(words, true, head)?;
    push_jml(words, tree)?;
    push_symbol(words, true, SEMICOLON)
}

fn push_clause<'a>(words: &mut Vec<Printed<'a>>, clause: &'a SpecTree) -> Result<(), NoMemory>
    ensures { OnOk result (words.new.items ≡ words.old.items ++ clause_written (clause_tree clause.now)) }
{
    match clause {
        SpecTree::Requires(_, tree) => push_predicate(words, REQUIRES, tree),
        SpecTree::Ensures(_, tree) => push_predicate(words, ENSURES, tree),
    }
}

fn push_clauses<'a>(words: &mut Vec<Printed<'a>>, clauses: &'a [SpecTree]) -> Result<(), NoMemory>
    ensures { OnOk result (words.new.items ≡ words.old.items ++ flat_map clause_written (map clause_tree clauses.now)) }
{
    for clause in clauses {
        push_clause(words, clause)?;
    }
    Ok(())
}

fn push_param<'a>(words: &mut Vec<Printed<'a>>, param: &'a ParamTree) -> Result<(), NoMemory>
    ensures { OnOk result (words.new.items ≡ words.old.items ++ param_written (param_tree param.now)) }
{
    push_modifiers(words, param.mods.as_slice())?;
    push_word(words, false, type_text(&param.kind))?;
    push_word(words, false, param.name.text.bytes())
}

/// Adds parameters, parted by commas.
fn push_params<'a>(words: &mut Vec<Printed<'a>>, params: &'a [ParamTree]) -> Result<(), NoMemory>
    ensures { OnOk result (words.new.items ≡ words.old.items ++ params_written (map param_tree params.now)) }
{
    let [first, more @ ..] = params else {
        return Ok(());
    };
    push_param(words, first)?;
    for param in more {
        push_symbol(words, false, COMMA)?;
        push_param(words, param)?;
    }
    Ok(())
}

fn result_text(kind: &Option<TypeTree>) -> &[u8]
    ensures { result.now ≡ result_text_lem kind.now }
{
    match kind {
        None => VOID,
        Some(kind) => type_text(kind),
    }
}

/// Adds the head of a method, from its result to the bracket behind its parameters.
fn push_head<'a>(
    words: &mut Vec<Printed<'a>>,
    kind: &'a Option<TypeTree>,
    name: &'a Ident,
    params: &'a [ParamTree],
) -> Result<(), NoMemory>
    ensures { OnOk result (words.new.items ≡ words.old.items ++ head_written kind.now name.now (map param_tree params.now)) }
{
    push_word(words, false, result_text(kind))?;
    push_word(words, false, name.text.bytes())?;
    push_symbol(words, false, OPEN_PAREN)?;
    push_params(words, params)?;
    push_symbol(words, false, CLOSE_PAREN)
}

fn push_method<'a>(words: &mut Vec<Printed<'a>>, method: &'a MethodTree) -> Result<(), NoMemory>
    ensures { OnOk result (words.new.items ≡ words.old.items ++ method_written (method_tree method.now)) }
{
    push_clauses(words, method.spec.as_slice())?;
    push_modifiers(words, method.mods.as_slice())?;
    push_head(
        words,
        &method.result,
        &method.name,
        method.params.as_slice(),
    )?;
    push_block(words, method.body.as_slice())
}

fn push_member<'a>(words: &mut Vec<Printed<'a>>, member: &'a Member) -> Result<(), NoMemory>
    ensures { OnOk result (words.new.items ≡ words.old.items ++ part_written (part_tree member.now)) }
{
    match member {
        Member::Invariant(_, tree) => push_predicate(words, INVARIANT, tree),
        Member::Field(mods, kind, name) => {
            push_modifiers(words, mods.as_slice())?;
            push_word(words, false, type_text(kind))?;
            push_word(words, false, name.text.bytes())?;
            push_symbol(words, false, SEMICOLON)
        }
        Member::Method(method) => push_method(words, method),
    }
}

/// Adds members in braces.
fn push_members<'a>(words: &mut Vec<Printed<'a>>, members: &'a [Member]) -> Result<(), NoMemory>
    ensures { OnOk result (words.new.items ≡ words.old.items ++ block_written (flat_map part_written (map part_tree members.now))) }
{
    push_symbol(words, false, OPEN_BRACE)?;
    for member in members {
        push_member(words, member)?;
    }
    push_symbol(words, false, CLOSE_BRACE)
}

fn push_class<'a>(words: &mut Vec<Printed<'a>>, class: &'a ClassTree) -> Result<(), NoMemory>
    ensures { OnOk result (words.new.items ≡ words.old.items ++ class_written (class_tree «class».now)) }
{
    push_modifiers(words, class.mods.as_slice())?;
    push_word(words, false, CLASS)?;
    push_word(words, false, class.name.text.bytes())?;
    push_members(words, class.members.as_slice())
}

/// Adds the tokens of classes.
pub(crate) fn push_classes<'a>(
    words: &mut Vec<Printed<'a>>,
    classes: &'a [ClassTree],
) -> Result<(), NoMemory>
    ensures { OnOk result (words.new.items ≡ words.old.items ++ tree_written (map class_tree classes.now)) }
{
    for class in classes {
        push_class(words, class)?;
    }
    Ok(())
}
