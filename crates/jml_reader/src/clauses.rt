ghost use Rattle.std.specs.Prelude.{◌≡◌, ◌<◌, ◌-◌, IfOk, List, drop, length, true};
ghost use Rattle.java_lex.specs.declared.token.Token.{Token as TokenOf};
ghost use Rattle.java_tree.specs.Trees.{Expr};
ghost use Rattle.java_tree.specs.Seen.{jml_tree};
ghost use Rattle.reading_core.specs.Deeper.{always};
ghost use Rattle.reading_core.specs.Gives.{Gives};
ghost use Rattle.expression_reading.specs.Reading.{expression_in};
ghost use Rattle.expression_reading.specs.Free.{IsFree};
ghost use Rattle.jml_reader.specs.Clause.{Answers, IsClause, IsEnded, Reads, WrongOf, DeepOf};

use crate::descent::{TOP, operand};
use crate::fault::SyntaxFault;
use java_lex::{Terminal, Token};
use java_tree::JmlTree;
use reading_core::{LEVELS, Stop, first};
use std::alloc::Global;

/// The expression of a clause at the head of the tokens, where so many levels of nesting are left, and the tokens
/// behind it: it takes all that goes on with it. Otherwise the tokens from the first one on with which none begins, or
/// from the one on that opens a level too many. Linear in the tokens that are read. (JML Reference Manual, "Predicates
/// and Specification Expressions".)
pub fn predicate(alloc: Global, left: u8, tokens: &[Token]) -> Result<(JmlTree, &[Token]), Stop<'_>>
    ensures reads { Gives jml_tree result (expression_in true always left tokens.now) }
    ensures shorter { IfOk result (λ x. length x.1.now < length tokens.now) }
{
    operand(alloc, tokens, left, TOP)
}

/// Reads the expression of a clause from the token number `from` on, and answers its tree and the number of the
/// first token with which no expression begins. The tokens are those of a text, so the last one is its end. Linear
/// in the tokens that are read. (JML Reference Manual, "Predicates and Specification Expressions".)
pub fn clause(alloc: Global, tokens: &[Token], from: usize) -> Result<(JmlTree, usize), SyntaxFault>
    requires in_range { from < length tokens.now }
    requires ended { IsEnded tokens.now }
    ensures answers { Answers tokens.now from result }
    ensures reads { (e : Expr) (rest : List TokenOf) → IsClause e (drop from tokens.now) rest → IsFree true 8 rest → Reads result e (length tokens.now - length rest) }
{
    let (_front, here) = tokens.split_at(from);
    match predicate(alloc, LEVELS, here) {
        Ok((tree, rest)) => Ok((tree, tokens.len() - rest.len())),
        Err(Stop::Memory) => Err(SyntaxFault::NoMemory),
        Err(Stop::Wrong(rest)) => Err(wrong(rest)),
        Err(Stop::Deep(rest)) => Err(deep(rest)),
    }
}

/// The fault of the first of the tokens, with which no expression begins.
fn wrong(tokens: &[Token]) -> SyntaxFault
    ensures { WrongOf tokens.now result }
{
    let Some((token, _behind)) = first(tokens) else {
        return SyntaxFault::Syntax { at: 0 };
    };
    match token.terminal() {
        Terminal::Absent(part) => SyntaxFault::Unsupported {
            part,
            at: token.from,
        },
        _ => SyntaxFault::Syntax { at: token.from },
    }
}

/// The fault of the first of the tokens, which opens a level too many.
fn deep(tokens: &[Token]) -> SyntaxFault
    ensures { DeepOf tokens.now result }
{
    match first(tokens) {
        Some((token, _behind)) => SyntaxFault::Deep { at: token.from },
        None => SyntaxFault::Deep { at: 0 },
    }
}
