ghost use Rattle.std.specs.Prelude.{◌≡◌, ◌<◌, ◌≤◌, true, IfOk, length, map};
ghost use Rattle.java_tree.specs.Seen.{clause_tree, jml_tree};
ghost use Rattle.reading_core.specs.Gives.{Gives};
ghost use Rattle.java_reading.specs.Readers.{head};
ghost use Rattle.java_reading.specs.Tokens.{at_head};
ghost use Rattle.java_reading.specs.MemberReading.{clause_in, clause_word_in, clauses_in, is_clause};
ghost use Rattle.text_reading.specs.Readers.{arguments_at, expression_at, predicate_at};
ghost use Rattle.java_reader.specs.Seen.{word_seen};

use java_lex::{Terminal, Token};
use java_reading::{Fixed, fixed};
use java_tree::SpecTree;
use jml_reader::predicate;
use reading_core::{Stop, first, terminal_at};
use std::alloc::Global;

/// The words with which clauses begin.
#[derive(Clone, Copy)]
pub(crate) enum ClauseWord {
    Requires,
    Ensures,
}

/// The word of a clause, with its place, and the tokens behind it.
fn clause_word(tokens: &[Token]) -> Result<((ClauseWord, u32), &[Token]), Stop<'_>>
    ensures is { Gives word_seen result (clause_word_in tokens.now) }
    ensures shorter { IfOk result (λ x. length x.1.now < length tokens.now) }
{
    let Some((token, rest)) = first(tokens) else {
        return Err(Stop::Wrong(tokens));
    };
    match terminal_at(token, true) {
        Terminal::Requires => Ok(((ClauseWord::Requires, token.from), rest)),
        Terminal::Ensures => Ok(((ClauseWord::Ensures, token.from), rest)),
        _ => Err(Stop::Wrong(tokens)),
    }
}

/// A clause with its `;`. (JML Reference Manual, "Method Specifications".)
fn clause(alloc: Global, left: u8, tokens: &[Token]) -> Result<(SpecTree, &[Token]), Stop<'_>>
    ensures is { Gives clause_tree result (clause_in expression_at arguments_at predicate_at left tokens.now) }
    ensures shorter { IfOk result (λ x. length x.1.now < length tokens.now) }
{
    let ((word, at), rest) = clause_word(tokens)?;
    let (condition, rest) = predicate(alloc, left, rest)?;
    let rest = fixed(rest, true, Fixed::Semicolon)?;
    match word {
        ClauseWord::Requires => Ok((SpecTree::Requires(at, condition), rest)),
        ClauseWord::Ensures => Ok((SpecTree::Ensures(at, condition), rest)),
    }
}

/// Whether a clause begins with the first of the tokens.
fn next_is_clause(tokens: &[Token]) -> bool
    ensures { result ≡ is_clause (at_head true (head tokens.now)) }
{
    match first(tokens) {
        Some((token, _behind)) => {
            matches!(
                terminal_at(token, true),
                Terminal::Requires | Terminal::Ensures
            )
        }
        None => false,
    }
}

/// The clauses up to the first token with which none begins. Linear in the tokens that are read.
pub(crate) fn clauses(
    alloc: Global,
    left: u8,
    tokens: &[Token],
) -> Result<(Vec<SpecTree>, &[Token]), Stop<'_>>
    ensures is { Gives (λ v. map clause_tree v.items) result (clauses_in expression_at arguments_at predicate_at left tokens.now) }
    ensures within { IfOk result (λ x. length x.1.now ≤ length tokens.now) }
{
    let mut clauses = Vec::new(alloc);
    let mut rest = tokens;
    'more: while next_is_clause(rest) {
        let (next, after) = clause(alloc, left, rest)?;
        clauses.push(next)?;
        rest = after;
    }
    Ok((clauses, rest))
}
