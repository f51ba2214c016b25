ghost use Rattle.std.specs.Prelude.{◌≡◌, ◌<◌, MatchResult, IfOk, length};
ghost use Rattle.java_tree.specs.Seen.{java_tree, java_trees};
ghost use Rattle.reading_core.specs.Read.{Got};
ghost use Rattle.java_reading.specs.Gives.{Blames};
ghost use Rattle.code_reader.specs.Code.{arguments_at, expression_at};

use crate::descent;
use crate::descent::{TOP, operand};
use java_lex::Token;
use java_tree::JavaTree;
use reading_core::Stop;
use std::alloc::Global;

/// An expression of code at the head of the tokens, where so many levels of nesting are left, and the tokens behind
/// it: it takes all that goes on with it. Otherwise the tokens from the first one on with which none begins, or from
/// the one on that opens a level too many. Linear in the tokens that are read. (Java Language Specification,
/// "Expressions".)
pub fn expression(
    alloc: Global,
    left: u8,
    tokens: &[Token],
) -> Result<(JavaTree, &[Token]), Stop<'_>>
    ensures is { MatchResult result (λ x. expression_at left tokens.now ≡ Got (java_tree x.0) x.1.now) (λ stop. Blames stop (expression_at left tokens.now)) }
    ensures shorter { IfOk result (λ x. length x.1.now < length tokens.now) }
{
    operand(alloc, tokens, left, TOP)
}

/// Arguments in their brackets at the head of the tokens, where so many levels of nesting are left, and the tokens
/// behind them; or the tokens from the one at fault on, as `expression` has them. Linear in the tokens that are
/// read. (Java Language Specification, "Method Invocation Expressions".)
pub fn arguments(
    alloc: Global,
    left: u8,
    tokens: &[Token],
) -> Result<(Vec<JavaTree>, &[Token]), Stop<'_>>
    ensures is { MatchResult result (λ x. arguments_at left tokens.now ≡ Got (java_trees x.0.items) x.1.now) (λ stop. Blames stop (arguments_at left tokens.now)) }
    ensures shorter { IfOk result (λ x. length x.1.now < length tokens.now) }
{
    descent::arguments(alloc, tokens, left)
}
