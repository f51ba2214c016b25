ghost use Rattle.std.specs.Prelude.{◌≡◌, ◌++◌, true, OnOk};
ghost use Rattle.java_tree.specs.Seen.{jml_tree, reach_class, reach_fields, reach_root};
ghost use Rattle.java_tree.specs.Print.{bracketed_written, fields_written, over_written, quantifier_text as quantifier_text_lem, quantifier_written, reach_written, written};

use crate::clauses::{JmlNode, JmlTree, ReachTree};
use crate::names::Ident;
use crate::print_code::{flag_text, sign_text};
use crate::printed::{Printed, push_number, push_slashed, push_symbol, push_word};
use java_lex::words::{
    CLOSE_PAREN, COMMA, DOT, EXISTS, FORALL, HAS, INT_SIZE, MINUS, NOT, NULL, OLD, OPEN_PAREN,
    PLUS, REACH, RESULT_VALUE, SEMICOLON, THIS,
};
use no_memory::NoMemory;

fn quantifier_text(all: bool) -> &'static [u8]
    ensures { result.now ≡ quantifier_text_lem all }
{
    if all { FORALL } else { EXISTS }
}

/// Adds the tokens of an expression of a clause.
#[cycle(clauses)]
pub(crate) fn push_jml<'a>(words: &mut Vec<Printed<'a>>, tree: &'a JmlTree) -> Result<(), NoMemory>
    ensures { OnOk result (words.new.items ≡ words.old.items ++ written (jml_tree tree.now) true) }
{
    match &tree.node {
        JmlNode::Num(n) => push_number(words, true, *n),
        JmlNode::Flag(flag) => push_word(words, true, flag_text(*flag)),
        JmlNode::Null => push_word(words, true, NULL),
        JmlNode::This => push_word(words, true, THIS),
        JmlNode::Result => push_slashed(words, true, RESULT_VALUE),
        JmlNode::Named(name) => push_word(words, true, name.text.bytes()),
        JmlNode::Read(a, name) => {
            push_jml(words, a)?;
            push_symbol(words, true, DOT)?;
            push_word(words, true, name.text.bytes())
        }
        JmlNode::Paren(a) => push_bracketed(words, a),
        JmlNode::Not(a) => {
            push_symbol(words, true, NOT)?;
            push_jml(words, a)
        }
        JmlNode::Neg(a) => {
            push_symbol(words, true, MINUS)?;
            push_jml(words, a)
        }
        JmlNode::Bin(sign, a, b) => {
            push_jml(words, a)?;
            push_symbol(words, true, sign_text(*sign))?;
            push_jml(words, b)
        }
        JmlNode::Old(a) => {
            push_slashed(words, true, OLD)?;
            push_bracketed(words, a)
        }
        JmlNode::Quant(all, class, name, None, body) => {
            push_quantifier(words, *all, class, name)?;
            push_jml(words, body)?;
            push_symbol(words, true, CLOSE_PAREN)
        }
        JmlNode::Quant(all, class, name, Some(range), body) => {
            push_quantifier(words, *all, class, name)?;
            push_jml(words, range)?;
            push_symbol(words, true, SEMICOLON)?;
            push_jml(words, body)?;
            push_symbol(words, true, CLOSE_PAREN)
        }
        JmlNode::Has(reach, a) => {
            push_reach(words, reach)?;
            push_symbol(words, true, DOT)?;
            push_word(words, true, HAS)?;
            push_bracketed(words, a)
        }
        JmlNode::Size(reach) => {
            push_reach(words, reach)?;
            push_symbol(words, true, DOT)?;
            push_word(words, true, INT_SIZE)?;
            push_symbol(words, true, OPEN_PAREN)?;
            push_symbol(words, true, CLOSE_PAREN)
        }
    }
}

/// Adds an expression in brackets.
#[cycle(clauses)]
fn push_bracketed<'a>(words: &mut Vec<Printed<'a>>, tree: &'a JmlTree) -> Result<(), NoMemory>
    ensures { OnOk result (words.new.items ≡ words.old.items ++ bracketed_written (written (jml_tree tree.now) true)) }
{
    push_symbol(words, true, OPEN_PAREN)?;
    push_jml(words, tree)?;
    push_symbol(words, true, CLOSE_PAREN)
}

/// Adds the head of a quantifier, up to its first semicolon.
fn push_quantifier<'a>(
    words: &mut Vec<Printed<'a>>,
    all: bool,
    class: &'a Ident,
    name: &'a Ident,
) -> Result<(), NoMemory>
    ensures { OnOk result (words.new.items ≡ words.old.items ++ quantifier_written all class.now name.now) }
{
    push_symbol(words, true, OPEN_PAREN)?;
    push_slashed(words, true, quantifier_text(all))?;
    push_word(words, true, class.text.bytes())?;
    push_word(words, true, name.text.bytes())?;
    push_symbol(words, true, SEMICOLON)
}

/// Adds what is reached from an object.
#[cycle(clauses)]
fn push_reach<'a>(words: &mut Vec<Printed<'a>>, reach: &'a ReachTree) -> Result<(), NoMemory>
    ensures { OnOk result (words.new.items ≡ words.old.items ++ reach_written (written (reach_root reach.now) true) (reach_class reach.now) (reach_fields reach.now)) }
{
    push_slashed(words, true, REACH)?;
    push_symbol(words, true, OPEN_PAREN)?;
    push_jml(words, &reach.root)?;
    push_fields(words, &reach.class, reach.fields.as_slice())
}

/// Adds the class and the fields of a reach.
fn push_fields<'a>(
    words: &mut Vec<Printed<'a>>,
    class: &'a Ident,
    fields: &'a [Ident],
) -> Result<(), NoMemory>
    ensures { OnOk result (words.new.items ≡ words.old.items ++ over_written class.now fields.now) }
{
    push_symbol(words, true, COMMA)?;
    push_word(words, true, class.text.bytes())?;
    push_symbol(words, true, COMMA)?;
    push_names(words, fields)?;
    push_symbol(words, true, CLOSE_PAREN)
}

/// Adds names of fields, parted by `+`.
fn push_names<'a>(words: &mut Vec<Printed<'a>>, fields: &'a [Ident]) -> Result<(), NoMemory>
    ensures { OnOk result (words.new.items ≡ words.old.items ++ fields_written fields.now) }
{
    let [first, more @ ..] = fields else {
        return Ok(());
    };
    push_word(words, true, first.text.bytes())?;
    for field in more {
        push_symbol(words, true, PLUS)?;
        push_word(words, true, field.text.bytes())?;
    }
    Ok(())
}
