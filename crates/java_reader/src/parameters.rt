ghost use Rattle.std.specs.Prelude.{◌≡◌, ◌<◌, ◌≤◌, IfOk, length, map};
ghost use Rattle.java_tree.specs.Seen.{param_tree};
ghost use Rattle.reading_core.specs.Gives.{Gives};
ghost use Rattle.java_reading.specs.MemberReading.{parameter_in, parameters_in};
ghost use Rattle.java_reader.specs.Items.{comma_parameter_in, some_parameters_in};

use crate::modifiers::{Modified, modifiers};
use crate::types::kind;
use java_lex::Token;
use java_reading::{Fixed, fixed, name, next_is};
use java_tree::ParamTree;
use reading_core::Stop;
use std::alloc::Global;

/// A parameter.
fn parameter(alloc: Global, tokens: &[Token]) -> Result<(ParamTree, &[Token]), Stop<'_>>
    ensures is { Gives param_tree result (parameter_in tokens.now) }
    ensures shorter { IfOk result (λ x. length x.1.now < length tokens.now) }
{
    let (mods, rest) = modifiers(alloc, Modified::Local, tokens)?;
    let (kind, rest) = kind(alloc, rest)?;
    let (name, rest) = name(alloc, rest, false)?;
    Ok((ParamTree { mods, kind, name }, rest))
}

/// A parameter behind a comma.
fn comma_parameter(alloc: Global, tokens: &[Token]) -> Result<(ParamTree, &[Token]), Stop<'_>>
    ensures is { Gives param_tree result (comma_parameter_in tokens.now) }
    ensures shorter { IfOk result (λ x. length x.1.now < length tokens.now) }
{
    let rest = fixed(tokens, false, Fixed::Comma)?;
    parameter(alloc, rest)
}

/// One parameter or more, parted by commas. Linear in the tokens that are read.
fn some_parameters(alloc: Global, tokens: &[Token]) -> Result<(Vec<ParamTree>, &[Token]), Stop<'_>>
    ensures is { Gives (λ v. map param_tree v.items) result (some_parameters_in tokens.now) }
    ensures shorter { IfOk result (λ x. length x.1.now < length tokens.now) }
{
    let (start, behind) = parameter(alloc, tokens)?;
    let mut parameters = Vec::new(alloc);
    parameters.push(start)?;
    let mut rest = behind;
    'more: while next_is(rest, false, Fixed::Comma) {
        let (next, after) = comma_parameter(alloc, rest)?;
        parameters.push(next)?;
        rest = after;
    }
    Ok((parameters, rest))
}

/// The parameters before the `)` of a method. Linear in the tokens that are read.
pub(crate) fn parameters(
    alloc: Global,
    tokens: &[Token],
) -> Result<(Vec<ParamTree>, &[Token]), Stop<'_>>
    ensures is { Gives (λ v. map param_tree v.items) result (parameters_in tokens.now) }
    ensures within { IfOk result (λ x. length x.1.now ≤ length tokens.now) }
{
    if next_is(tokens, false, Fixed::CloseParen) {
        Ok((Vec::new(alloc), tokens))
    } else {
        some_parameters(alloc, tokens)
    }
}
