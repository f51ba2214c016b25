ghost use Rattle.std.specs.Prelude.{◌≡◌, ◌<◌, ◌≤◌, map, length, IfSome};
ghost use Rattle.java_lex.specs.Spellings.{first_in, symbol_len};
ghost use Rattle.java_lex.specs.Fronts.{comment_front as comment_front_lem, front_in, front_out, gap_len as gap_len_lem, token_front as token_front_lem, token_of_len, Lies, LiesOutside};
ghost use Rattle.java_lex.specs.declared.front.Shape.TheVariants.{Symbol as symbol_shape};

use crate::classes::{Class, has, is_in, run};
use crate::literals::{first_close, number, quoted_len};
use crate::spelling::Spelling;
use crate::tables::SYMBOLS;

/// What kind of token a text begins with.
#[derive(Clone, Copy)]
pub(crate) enum Shape {
    Word,
    Number(u32),
    Quoted,
    Slashed,
    Symbol,
}

/// What a text begins with, and how many bytes that has.
#[derive(Clone, Copy)]
pub(crate) enum Front {
    /// White space or a comment.
    Gap(usize),
    Token(Shape, usize),
    /// Nothing that may stand there.
    Bad,
}

/// What a text outside annotations begins with.
#[derive(Clone, Copy)]
pub(crate) enum Outside {
    Plain(Front),
    /// An annotation: how many bytes stand behind its first two, up to its end; how many it has in all; and
    /// whether `*/` ends it.
    Note(usize, usize, bool),
}

/// The length of the first symbol of the table that stands first in the text, and means something there.
fn first_len(table: &[Spelling], jml: bool, text: &[u8]) -> Option<usize>
    ensures first { result ≡ first_in jml text.now (map (λ s. (s.0.now, s.1, s.2)) table.now) }
    ensures within { IfSome result (λ n. n ≤ length text.now) }
{
    for (symbol, in_jml, _) in table {
        if (jml || !*in_jml) && text.starts_with(symbol) {
            return Some(symbol.len());
        }
    }
    None
}

/// The symbol that a text begins with.
fn symbol_front(jml: bool, text: &[u8]) -> Front
    ensures front { result ≡ token_of_len symbol_shape (symbol_len jml text.now) }
    ensures within { Lies text.now result }
{
    match first_len(&SYMBOLS, jml, text) {
        Some(n) => Front::Token(Shape::Symbol, n),
        None => Front::Bad,
    }
}

/// The token that a text begins with.
fn token_front(jml: bool, text: &[u8]) -> Front
    ensures front { result ≡ token_front_lem jml text.now }
    ensures within { Lies text.now result }
{
    let [first, behind @ ..] = text else {
        return Front::Gap(0);
    };
    if is_in(Class::WordStart, *first) {
        Front::Token(Shape::Word, 1 + run(Class::WordPart, behind))
    } else if is_in(Class::Digit, *first) {
        let (digits, _) = text.split_at(1 + run(Class::NumberPart, behind));
        match number(digits) {
            Some(n) => Front::Token(Shape::Number(n), digits.len()),
            None => Front::Bad,
        }
    } else if *first == b'"' || *first == b'\'' {
        match quoted_len(*first, behind) {
            Some(n) => Front::Token(Shape::Quoted, 1 + n),
            None => Front::Bad,
        }
    } else if *first == b'\\' {
        let letters = run(Class::SlashPart, behind);
        if jml && letters > 0 {
            Front::Token(Shape::Slashed, 1 + letters)
        } else {
            Front::Bad
        }
    } else {
        symbol_front(jml, text)
    }
}

/// How many bytes of white space a text inside an annotation begins with: the `@` at the start of a line
/// are some.
fn gap_len(text: &[u8]) -> usize
    ensures gap { result ≡ gap_len_lem text.now }
    ensures within { result ≤ length text.now }
{
    let white = run(Class::White, text);
    let (blanks, behind) = text.split_at(white);
    if has(Class::LineEnd, blanks) {
        white + run(Class::At, behind)
    } else {
        white
    }
}

/// What the rest of an annotation begins with.
pub(crate) fn front_inside(closed: bool, text: &[u8]) -> Front
    ensures front { result ≡ front_in closed text.now }
    ensures within { Lies text.now result }
{
    let gap = gap_len(text);
    if gap > 0 {
        Front::Gap(gap)
    } else if closed && run(Class::At, text) == text.len() {
        Front::Gap(text.len())
    } else if text.starts_with(b"//") {
        Front::Gap(run(Class::InLine, text))
    } else {
        token_front(true, text)
    }
}

/// A comment, or an annotation, where `@` stands first in it.
fn comment_front(content: &[u8], whole: usize, closed: bool) -> Outside
    ensures { result ≡ comment_front_lem content.now whole closed }
{
    if content.starts_with(b"@") {
        Outside::Note(content.len(), whole, closed)
    } else {
        Outside::Plain(Front::Gap(whole))
    }
}

/// What a text outside annotations begins with.
pub(crate) fn front_outside(text: &[u8]) -> Outside
    ensures front { result ≡ front_out text.now }
    ensures within { LiesOutside text.now result }
{
    let white = run(Class::White, text);
    if white > 0 {
        Outside::Plain(Front::Gap(white))
    } else if text.starts_with(b"//") {
        let (_, behind) = text.split_at(2);
        let length = run(Class::InLine, behind);
        let (content, _) = behind.split_at(length);
        comment_front(content, 2 + length, false)
    } else if text.starts_with(b"/*") {
        let (_, behind) = text.split_at(2);
        let Some(length) = first_close(behind) else {
            return Outside::Plain(Front::Bad);
        };
        let (content, _) = behind.split_at(length);
        comment_front(content, 4 + length, true)
    } else {
        Outside::Plain(token_front(false, text))
    }
}
