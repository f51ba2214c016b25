ghost use Rattle.std.specs.Prelude.{◌≡◌, ◌<◌, IfOk, length, true};
ghost use Rattle.reading_core.specs.Gives.{Gives};
ghost use Rattle.expression_reading.specs.Reading.{field_in, first_is, is_plus};
ghost use Rattle.jml_reader.specs.Descent.{fields_in};

use java_lex::{Terminal, Token};
use java_tree::Ident;
use reading_core::{Stop, first, ident, name, terminal_at};
use std::alloc::Global;

/// Whether a `+` comes first.
fn is_field(tokens: &[Token]) -> bool
    ensures { result ≡ first_is (is_plus true) tokens.now }
{
    match first(tokens) {
        Some((token, _behind)) => matches!(terminal_at(token, true), Terminal::Plus),
        None => false,
    }
}

/// A field of a reach, behind its `+`. Linear in its bytes.
fn field<'a>(alloc: Global, tokens: &'a [Token]) -> Result<(Ident, &'a [Token]), Stop<'a>>
    ensures reads { Gives (λ i. i) result (field_in tokens.now) }
    ensures shorter { IfOk result (λ x. length x.1.now < length tokens.now) }
{
    let Some((token, behind)) = first(tokens) else {
        return Err(Stop::Wrong(tokens));
    };
    if !matches!(terminal_at(token, true), Terminal::Plus) {
        return Err(Stop::Wrong(tokens));
    }
    let (token, rest) = name(behind, true)?;
    let field = ident(alloc, token)?;
    Ok((field, rest))
}

/// The fields of a reach: the first one, and those behind it, each behind a `+`. Linear in their bytes.
pub(crate) fn fields<'a>(
    alloc: Global,
    tokens: &'a [Token],
    start: Ident,
) -> Result<(Vec<Ident>, &'a [Token]), Stop<'a>>
    ensures { Gives (λ v. v.items) result (fields_in start tokens.now) }
{
    let mut names = Vec::new(alloc);
    names.push(start)?;
    let mut rest = tokens;
    'fields: while is_field(rest) {
        let (name, after) = field(alloc, rest)?;
        names.push(name)?;
        rest = after;
    }
    Ok((names, rest))
}
