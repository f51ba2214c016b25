ghost use Rattle.std.specs.Prelude.{◌≡◌, ◌<◌, ◌≤◌, suc, IfOk, length};
ghost use Rattle.java_reading.specs.MemberReading.{dotted_in, import_in, import_tail_by, package_in};
ghost use Rattle.java_reader.specs.Headers.{Passes, dot_name_passed, imports_passed, name_passed, own_package_passed, static_passed};

use java_lex::{Terminal, Token};
use java_reading::{Fixed, fixed, next_is};
use reading_core::{Stop, first, terminal_at};

/// The tokens behind a name. Takes no memory.
fn skip_name(tokens: &[Token]) -> Result<&[Token], Stop<'_>>
    ensures is { Passes result (name_passed tokens.now) }
    ensures shorter { IfOk result (λ rest. length rest.now < length tokens.now) }
{
    let Some((token, rest)) = first(tokens) else {
        return Err(Stop::Wrong(tokens));
    };
    match terminal_at(token, false) {
        Terminal::Name => Ok(rest),
        _ => Err(Stop::Wrong(tokens)),
    }
}

/// The tokens behind a `.` and a name.
fn skip_dot_name(tokens: &[Token]) -> Result<&[Token], Stop<'_>>
    ensures is { Passes result (dot_name_passed tokens.now) }
    ensures shorter { IfOk result (λ rest. length rest.now < length tokens.now) }
{
    let rest = fixed(tokens, false, Fixed::Dot)?;
    skip_name(rest)
}

/// The tokens behind a name of several parts. Linear in the tokens that are read.
fn skip_dotted(tokens: &[Token]) -> Result<&[Token], Stop<'_>>
    ensures is { Passes result (dotted_in tokens.now) }
    ensures shorter { IfOk result (λ rest. length rest.now < length tokens.now) }
{
    let mut rest = skip_name(tokens)?;
    'parts: while next_is(rest, false, Fixed::Dot) {
        rest = skip_dot_name(rest)?;
    }
    Ok(rest)
}

/// The tokens behind a package line. (Java Language Specification, "Packages and Modules".)
fn skip_package(tokens: &[Token]) -> Result<&[Token], Stop<'_>>
    ensures is { Passes result (package_in tokens.now) }
    ensures shorter { IfOk result (λ rest. length rest.now < length tokens.now) }
{
    let rest = fixed(tokens, false, Fixed::Package)?;
    let rest = skip_dotted(rest)?;
    fixed(rest, false, Fixed::Semicolon)
}

/// The tokens behind the first name of an import: its further names, or `*`, and the `;`.
fn skip_import_tail(tokens: &[Token]) -> Result<&[Token], Stop<'_>>
    ensures is { Passes result (import_tail_by (suc (length tokens.now)) tokens.now) }
    ensures shorter { IfOk result (λ rest. length rest.now < length tokens.now) }
{
    let mut rest = tokens;
    'parts: while next_is(rest, false, Fixed::Dot) {
        let behind = fixed(rest, false, Fixed::Dot)?;
        if next_is(behind, false, Fixed::Times) {
            let behind = fixed(behind, false, Fixed::Times)?;
            return fixed(behind, false, Fixed::Semicolon);
        }
        rest = skip_name(behind)?;
    }
    fixed(rest, false, Fixed::Semicolon)
}

/// The tokens behind an import. (Java Language Specification, "Packages and Modules".)
fn skip_import(tokens: &[Token]) -> Result<&[Token], Stop<'_>>
    ensures is { Passes result (import_in tokens.now) }
    ensures shorter { IfOk result (λ rest. length rest.now < length tokens.now) }
{
    let rest = fixed(tokens, false, Fixed::Import)?;
    let rest = skip_static(rest)?;
    let rest = skip_name(rest)?;
    skip_import_tail(rest)
}

/// The tokens behind `static`, if they begin with it.
fn skip_static(tokens: &[Token]) -> Result<&[Token], Stop<'_>>
    ensures is { Passes result (static_passed tokens.now) }
    ensures within { IfOk result (λ rest. length rest.now ≤ length tokens.now) }
{
    if next_is(tokens, false, Fixed::Static) {
        fixed(tokens, false, Fixed::Static)
    } else {
        Ok(tokens)
    }
}

/// The tokens behind the package line, if they begin with one. Linear in the tokens that are read.
pub(crate) fn skip_own_package(tokens: &[Token]) -> Result<&[Token], Stop<'_>>
    ensures is { Passes result (own_package_passed tokens.now) }
    ensures within { IfOk result (λ rest. length rest.now ≤ length tokens.now) }
{
    if next_is(tokens, false, Fixed::Package) {
        skip_package(tokens)
    } else {
        Ok(tokens)
    }
}

/// The tokens behind the imports. Linear in the tokens that are read.
pub(crate) fn skip_imports(tokens: &[Token]) -> Result<&[Token], Stop<'_>>
    ensures is { Passes result (imports_passed tokens.now) }
    ensures within { IfOk result (λ rest. length rest.now ≤ length tokens.now) }
{
    let mut rest = tokens;
    'imports: while next_is(rest, false, Fixed::Import) {
        rest = skip_import(rest)?;
    }
    Ok(rest)
}
