ghost use Rattle.std.specs.Prelude.{◌≡◌, ◌<◌, MatchResult, IfOk, length};
ghost use Rattle.reading_core.specs.Read.{Got};
ghost use Rattle.java_reading.specs.Gives.{Blames};
ghost use Rattle.java_reading.specs.Readers.{head, left_below};
ghost use Rattle.java_reading.specs.Tokens.{fixed as fixed_lem, fixed_at as fixed_at_lem, is_name as is_name_lem, name_in, next_is as next_is_lem, next_is_name as next_is_name_lem};

use crate::marks::{Fixed, is_it};
use java_lex::{Terminal, Token};
use java_tree::Ident;
use reading_core::{Stop, first, ident, terminal_at};
use std::alloc::Global;

/// Behind the token that is this one.
pub fn fixed(tokens: &[Token], jml: bool, fixed: Fixed) -> Result<&[Token], Stop<'_>>
    ensures is { MatchResult result (λ rest. fixed_lem jml fixed tokens.now ≡ Got tt rest.now) (λ stop. Blames stop (fixed_lem jml fixed tokens.now)) }
    ensures shorter { IfOk result (λ rest. length rest.now < length tokens.now) }
{
    if let Some((token, rest)) = first(tokens) {
        if is_it(fixed, terminal_at(token, jml)) {
            return Ok(rest);
        }
    }
    Err(Stop::Wrong(tokens))
}

/// The place of the token that is this one, and the tokens behind it.
pub fn fixed_at(tokens: &[Token], jml: bool, fixed: Fixed) -> Result<(u32, &[Token]), Stop<'_>>
    ensures is { MatchResult result (λ x. fixed_at_lem jml fixed tokens.now ≡ Got x.0 x.1.now) (λ stop. Blames stop (fixed_at_lem jml fixed tokens.now)) }
    ensures shorter { IfOk result (λ x. length x.1.now < length tokens.now) }
{
    if let Some((token, rest)) = first(tokens) {
        if is_it(fixed, terminal_at(token, jml)) {
            return Ok((token.from, rest));
        }
    }
    Err(Stop::Wrong(tokens))
}

/// Whether the first token is this one. Takes no memory.
pub fn next_is(tokens: &[Token], jml: bool, fixed: Fixed) -> bool
    ensures { result ≡ next_is_lem jml fixed (head tokens.now) }
{
    match first(tokens) {
        Some((token, _)) => is_it(fixed, terminal_at(token, jml)),
        None => is_it(fixed, Terminal::Reserved),
    }
}

fn is_name(terminal: Terminal) -> bool
    ensures { result ≡ is_name_lem terminal }
{
    matches!(terminal, Terminal::Name)
}

/// Whether the first token is a name of code. Takes no memory.
pub fn next_is_name(tokens: &[Token]) -> bool
    ensures { result ≡ next_is_name_lem (head tokens.now) }
{
    match first(tokens) {
        Some((token, _)) => is_name(terminal_at(token, false)),
        None => false,
    }
}

/// A name and the tokens behind it. Linear in its bytes.
pub fn name(alloc: Global, tokens: &[Token], jml: bool) -> Result<(Ident, &[Token]), Stop<'_>>
    ensures is { MatchResult result (λ x. name_in jml tokens.now ≡ Got x.0 x.1.now) (λ stop. Blames stop (name_in jml tokens.now)) }
    ensures shorter { IfOk result (λ x. length x.1.now < length tokens.now) }
{
    if let Some((token, rest)) = first(tokens) {
        if is_name(terminal_at(token, jml)) {
            let name = ident(alloc, token)?;
            return Ok((name, rest));
        }
    }
    Err(Stop::Wrong(tokens))
}

/// How many levels are left one level deeper, where so many are left.
pub fn lower(left: u8) -> Option<u8>
    ensures { result ≡ left_below left }
{
    left.checked_sub(1)
}
