ghost use Rattle.std.specs.Prelude.{◌≡◌, ◌++◌, false, OnOk};
ghost use Rattle.java_tree.specs.Seen.{java_tree, java_trees};
ghost use Rattle.java_tree.specs.Print.{args_written, call_written, flag_text as flag_text_lem, sign_text as sign_text_lem, written};

use crate::expressions::{JavaNode, JavaTree, Sign};
use crate::names::Ident;
use crate::printed::{Printed, push_number, push_symbol, push_word};
use java_lex::words::{
    AND, AT_LEAST, AT_MOST, CLOSE_PAREN, COMMA, DOT, EQUAL, FALSE, GREATER, IFF, IMPLIES, LESS,
    MINUS, NEW, NOT, NOT_EQUAL, NULL, OPEN_PAREN, OR, PLUS, THIS, TIMES, TRUE,
};
use no_memory::NoMemory;

pub(crate) fn sign_text(sign: Sign) -> &'static [u8]
    ensures { result.now ≡ sign_text_lem sign }
{
    match sign {
        Sign::Add => PLUS,
        Sign::Sub => MINUS,
        Sign::Mul => TIMES,
        Sign::Eq => EQUAL,
        Sign::Ne => NOT_EQUAL,
        Sign::Lt => LESS,
        Sign::Le => AT_MOST,
        Sign::Gt => GREATER,
        Sign::Ge => AT_LEAST,
        Sign::And => AND,
        Sign::Or => OR,
        Sign::Implies => IMPLIES,
        Sign::Iff => IFF,
    }
}

pub(crate) fn flag_text(flag: bool) -> &'static [u8]
    ensures { result.now ≡ flag_text_lem flag }
{
    if flag { TRUE } else { FALSE }
}

/// Adds the tokens of an expression of code.
#[cycle(code)]
pub(crate) fn push_java<'a>(
    words: &mut Vec<Printed<'a>>,
    tree: &'a JavaTree,
) -> Result<(), NoMemory>
    ensures { OnOk result (words.new.items ≡ words.old.items ++ written (java_tree tree.now) false) }
{
    match &tree.node {
        JavaNode::Num(n) => push_number(words, false, *n),
        JavaNode::Flag(flag) => push_word(words, false, flag_text(*flag)),
        JavaNode::Null => push_word(words, false, NULL),
        JavaNode::This => push_word(words, false, THIS),
        JavaNode::New(name) => {
            push_word(words, false, NEW)?;
            push_word(words, false, name.text.bytes())?;
            push_symbol(words, false, OPEN_PAREN)?;
            push_symbol(words, false, CLOSE_PAREN)
        }
        JavaNode::Named(name) => push_word(words, false, name.text.bytes()),
        JavaNode::Call(name, args) => { push_call(words, name, args.as_slice()) }
        JavaNode::Read(a, name) => {
            push_java(words, a)?;
            push_symbol(words, false, DOT)?;
            push_word(words, false, name.text.bytes())
        }
        JavaNode::CallOn(a, name, args) => {
            push_java(words, a)?;
            push_symbol(words, false, DOT)?;
            push_call(words, name, args.as_slice())
        }
        JavaNode::Paren(a) => {
            push_symbol(words, false, OPEN_PAREN)?;
            push_java(words, a)?;
            push_symbol(words, false, CLOSE_PAREN)
        }
        JavaNode::Not(a) => {
            push_symbol(words, false, NOT)?;
            push_java(words, a)
        }
        JavaNode::Neg(a) => {
            push_symbol(words, false, MINUS)?;
            push_java(words, a)
        }
        JavaNode::Bin(sign, a, b) => {
            push_java(words, a)?;
            push_symbol(words, false, sign_text(*sign))?;
            push_java(words, b)
        }
    }
}

/// Adds a name and arguments in brackets.
#[cycle(code)]
fn push_call<'a>(
    words: &mut Vec<Printed<'a>>,
    name: &'a Ident,
    args: &'a [JavaTree],
) -> Result<(), NoMemory>
    ensures { OnOk result (words.new.items ≡ words.old.items ++ call_written name.now (args_written (java_trees args.now))) }
{
    push_word(words, false, name.text.bytes())?;
    push_symbol(words, false, OPEN_PAREN)?;
    push_args(words, args)?;
    push_symbol(words, false, CLOSE_PAREN)
}

/// Adds the tokens of arguments, parted by commas.
#[cycle(code)]
fn push_args<'a>(words: &mut Vec<Printed<'a>>, args: &'a [JavaTree]) -> Result<(), NoMemory>
    ensures { OnOk result (words.new.items ≡ words.old.items ++ args_written (java_trees args.now)) }
{
    let [first, more @ ..] = args else {
        return Ok(());
    };
    push_java(words, first)?;
    for arg in more {
        push_symbol(words, false, COMMA)?;
        push_java(words, arg)?;
    }
    Ok(())
}
