ghost use Rattle.std.specs.Prelude.{◌≡◌, ◌++◌, codes, IfOk, OnOk};
ghost use Rattle.taco_report.specs.Statuses.{IsRefusal};
ghost use Rattle.taco_report.specs.RefusalLines.{absent_text, many_text, placed, refusal_line, refusal_words, source_words};

use crate::status::Status;
use crate::writing::{add, add_number};
use java_lex::Absent;
use no_memory::NoMemory;
use refusals::{Many, Refusal};
use std::alloc::Global;

/// The word of what the profile has not.
fn absent_word(part: Absent) -> &'static [u8]
    ensures { result.now ≡ absent_text part }
{
    match part {
        Absent::Array => b"array",
        Absent::Text => b"text",
        Absent::TypeWord => b"type",
        Absent::Class => b"class",
        Absent::Statement => b"statement",
        Absent::Modifier => b"modifier",
        Absent::Operator => b"operator",
        Absent::Super => b"super",
        Absent::Jml => b"jml",
    }
}

/// The word of what there is too much of.
fn many_word(many: Many) -> &'static [u8]
    ensures { result.now ≡ many_text many }
{
    match many {
        Many::Classes => b"classes",
        Many::Fields => b"fields",
        Many::RefFields => b"reffields",
        Many::Methods => b"methods",
        Many::Params => b"params",
        Many::Locals => b"locals",
        Many::Clauses => b"clauses",
        Many::Loops => b"loops",
        Many::Quantifiers => b"quantifiers",
    }
}

/// Adds words, and a place behind them.
fn add_placed(alloc: Global, out: &mut Vec<u8>, words: &[u8], at: u32) -> Result<(), NoMemory>
    ensures { OnOk result (out.new.items ≡ out.old.items ++ placed words.now at) }
{
    add(out, words)?;
    add(out, b" ")?;
    add_number(alloc, out, u64::from(at))
}

/// Adds two words, and a place behind them.
fn add_told(
    alloc: Global,
    out: &mut Vec<u8>,
    word: &[u8],
    what: &[u8],
    at: u32,
) -> Result<(), NoMemory>
    ensures { OnOk result (out.new.items ≡ out.old.items ++ (word.now ++ codes " " ++ placed what.now at)) }
{
    add(out, word)?;
    add(out, b" ")?;
    add_placed(alloc, out, what, at)
}

/// Adds why the bytes of a text stand for no unit.
fn add_source(alloc: Global, out: &mut Vec<u8>, refusal: Refusal) -> Result<(), NoMemory>
    ensures { OnOk result (out.new.items ≡ out.old.items ++ source_words refusal) }
{
    match refusal {
        Refusal::BadToken { at } => add_placed(alloc, out, b"badtoken", at),
        Refusal::Syntax { at } => add_placed(alloc, out, b"syntax", at),
        Refusal::Unsupported { part, at } => {
            add_told(alloc, out, b"unsupported", absent_word(part), at)
        }
        Refusal::Deep { at } => add_placed(alloc, out, b"deep", at),
        Refusal::Unknown { at } => add_placed(alloc, out, b"unknown", at),
        Refusal::Twice { at } => add_placed(alloc, out, b"twice", at),
        Refusal::Kinds { at } => add_placed(alloc, out, b"kinds", at),
        Refusal::TooMany { many, at } => add_told(alloc, out, b"toomany", many_word(many), at),
    }
}

/// Adds the words of a refusal.
fn add_refusal(alloc: Global, out: &mut Vec<u8>, status: &Status) -> Result<(), NoMemory>
    requires { IsRefusal status.now }
    ensures { OnOk result (out.new.items ≡ out.old.items ++ refusal_words status.now) }
{
    match status {
        Status::Usage => add(out, b"usage"),
        Status::NotBuilt => add(out, b"notbuilt"),
        Status::Source(refusal) => {
            add(out, b"source ")?;
            add_source(alloc, out, *refusal)
        }
        Status::NoMethod => add(out, b"nomethod"),
        Status::BadState { at } => add_placed(alloc, out, b"badstate", *at),
        Status::BadText { slot, at } => {
            add(out, b"badtext ")?;
            add_number(alloc, out, u64::from(*slot))?;
            add(out, b" ")?;
            add_number(alloc, out, u64::from(*at))
        }
        Status::TooLong { .. } => add(out, b"toolong"),
        _ => Ok(()),
    }
}

/// The one line that a refusal prints: its word, and where it has one its place. The status is one
/// of code 2 to 4.
pub fn refusal_text(alloc: Global, status: &Status) -> Result<Vec<u8>, NoMemory>
    requires { IsRefusal status.now }
    ensures { IfOk result (λ text. text.items ≡ refusal_line status.now) }
{
    let mut out = Vec::new(alloc);
    add_refusal(alloc, &mut out, status)?;
    add(&mut out, b"\n")?;
    Ok(out)
}
