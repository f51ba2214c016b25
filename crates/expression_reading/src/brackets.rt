ghost use Rattle.std.specs.Prelude.{◌≡◌};
ghost use Rattle.reading_core.specs.Gives.{Gives};
ghost use Rattle.expression_reading.specs.Parts.{empty_in};

use crate::levels::deeper;
use java_lex::Token;
use reading_core::{Stop, close, open};

/// Empty brackets, in a clause (`jml`) or in code, where so many levels are left, and the tokens behind them. Takes
/// no memory.
pub fn empty(tokens: &[Token], jml: bool, left: u8) -> Result<((), &[Token]), Stop<'_>>
    ensures { Gives (λ _. tt {0}) result (empty_in jml left tokens.now) }
{
    let (_open, rest) = open(tokens, jml)?;
    let Some(_less) = deeper(left) else {
        return Err(Stop::Deep(tokens));
    };
    let (_close, rest) = close(rest, jml)?;
    Ok(((), rest))
}
