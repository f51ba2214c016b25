ghost use Rattle.std.specs.Prelude.{◌≡◌, ◌<◌, IfOk, length};
ghost use Rattle.reading_core.specs.Gives.{Gives};
ghost use Rattle.java_reading.specs.StatementReading.{type_in};

use java_lex::{Terminal, Token};
use java_tree::TypeTree;
use reading_core::{Stop, first, ident, terminal_at};
use std::alloc::Global;

/// A type, and the tokens behind it. Linear in its bytes.
pub(crate) fn kind(alloc: Global, tokens: &[Token]) -> Result<(TypeTree, &[Token]), Stop<'_>>
    ensures is { Gives (λ kind. kind) result (type_in tokens.now) }
    ensures shorter { IfOk result (λ x. length x.1.now < length tokens.now) }
{
    let Some((token, rest)) = first(tokens) else {
        return Err(Stop::Wrong(tokens));
    };
    match terminal_at(token, false) {
        Terminal::Int => Ok((TypeTree::Int, rest)),
        Terminal::Boolean => Ok((TypeTree::Flag, rest)),
        Terminal::Name => {
            let name = ident(alloc, token)?;
            Ok((TypeTree::Class(name), rest))
        }
        _ => Err(Stop::Wrong(tokens)),
    }
}
