ghost use Rattle.std.specs.Prelude.{◌≤◌, ℕ, List, length};
ghost use Rattle.java_lex.specs.Cut.{BadAt, Cut};
ghost use Rattle.java_lex.specs.declared.token.Token.{Token as TokenOf};
ghost use Rattle.text_reading.specs.Verdicts.{Holds, Verdict};
ghost use Rattle.java_reader.specs.Source.{Answers, DeepOf, Fails, Is, WrongOf};

use crate::fault::SourceFault;
use crate::units::whole_text;
use java_lex::{Terminal, Token, tokens};
use java_tree::Tree;
use reading_core::{LEVELS, Stop, first};
use std::alloc::Global;

/// The fault of the first of the tokens, with which no text begins.
fn wrong(tokens: &[Token]) -> SourceFault
    ensures { WrongOf tokens.now result }
{
    let Some((token, _behind)) = first(tokens) else {
        return SourceFault::Syntax { at: 0 };
    };
    match token.terminal() {
        Terminal::Absent(part) => SourceFault::Unsupported {
            part,
            at: token.from,
        },
        _ => SourceFault::Syntax { at: token.from },
    }
}

/// The fault of the first of the tokens, which opens a level too many.
fn deep(tokens: &[Token]) -> SourceFault
    ensures { DeepOf tokens.now result }
{
    match first(tokens) {
        Some((token, _behind)) => SourceFault::Deep { at: token.from },
        None => SourceFault::Deep { at: 0 },
    }
}

/// Reads a Java text with JML contracts, and answers its tree. `BadToken` goes by the whole text and comes first;
/// `Syntax`, `Unsupported` and `Deep` have the first token with which no text begins within 64 levels of nesting:
/// `Deep` where the level that it opens is why, and else `Unsupported` where the profile has not what the token is.
/// Linear in the text. (Java Language Specification, "Syntax"; JML Reference Manual, "Grammar Summary".)
pub fn read_unit(alloc: Global, text: &[u8]) -> Result<Tree, SourceFault>
    requires { length text.now ≤ 67108864 }
    ensures answers { Answers text.now result }
    // the bytes are cut into tokens, of which this verdict holds
    ensures judged { (ts : List TokenOf) (v : Verdict) → Cut text.now ts → Holds ts v → Is result v }
    ensures bad { (at : ℕ) → BadAt text.now at → Fails result (SourceFault.BadToken at) }
{
    let tokens = tokens(alloc, text)?;
    match whole_text(alloc, LEVELS, tokens.as_slice()) {
        Ok((tree, _end)) => Ok(tree),
        Err(Stop::Memory) => Err(SourceFault::NoMemory),
        Err(Stop::Wrong(rest)) => Err(wrong(rest)),
        Err(Stop::Deep(rest)) => Err(deep(rest)),
    }
}
