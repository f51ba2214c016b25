ghost use Rattle.std.specs.Prelude.{◌≡◌, ◌+◌, ◌<◌, ◌≤◌, [], ◌∷◌, ◌++◌, true, length, take, drop, OnOk, IfOk, IfErr};
ghost use Rattle.java_lex.specs.Fronts.{front_in, front_out, Lies, LiesOutside};
ghost use Rattle.java_lex.specs.Cut.{token_of, IsBad, IsBadNote, IsInside, IsNote, IsPiece, IsPlain, Cut};
ghost use Rattle.java_lex.specs.Steps.{Blames, BlamesText, GainsNote, IsBadHere, Takes};

use crate::classes::{Class, run};
use crate::fault::LexFault;
use crate::front::{Front, Outside, Shape, front_inside, front_outside};
use crate::token::{Lexeme, Token, TokenKind};
use no_memory::NoMemory;
use std::alloc::Global;

/// The token of this shape that these bytes are.
fn make_token(
    alloc: Global,
    shape: Shape,
    jml: bool,
    at: u32,
    bytes: &[u8],
) -> Result<Token, NoMemory>
    requires { at + length bytes.now ≤ 67108864 }
    ensures { IfOk result (λ t. t ≡ token_of shape jml at bytes.now) }
{
    let kind = match shape {
        Shape::Word => TokenKind::Word(Lexeme::new(alloc, bytes)?),
        Shape::Number(n) => TokenKind::Number(n),
        Shape::Quoted => TokenKind::Quoted,
        Shape::Slashed => TokenKind::Slashed(Lexeme::new(alloc, bytes)?),
        Shape::Symbol => TokenKind::Symbol(Lexeme::new(alloc, bytes)?),
    };
    Ok(Token {
        kind,
        jml,
        from: at,
        to: at + bytes.len() as u32,
    })
}

/// Adds the token with which the text begins, if it is one. Answers how many bytes were gone through.
fn take_plain(
    alloc: Global,
    tokens: &mut Vec<Token>,
    jml: bool,
    at: u32,
    text: &[u8],
    front: Front,
) -> Result<usize, LexFault>
    requires place { at + length text.now ≤ 67108864 }
    requires some { 0 < length text.now }
    requires within { Lies text.now front }
    ensures ok { IfOk result (λ n. Takes (IsPlain jml front) at text.now tokens.old.items tokens.new.items n) }
    ensures bad { IfErr result (Blames (IsBadHere at front)) }
{
    match front {
        Front::Gap(n) => Ok(n),
        Front::Token(shape, n) => {
            let (bytes, _) = text.split_at(n);
            match make_token(alloc, shape, jml, at, bytes) {
                Ok(token) => push(tokens, token, n),
                Err(_) => Err(LexFault::NoMemory),
            }
        }
        Front::Bad => Err(LexFault::BadToken { at }),
    }
}

/// Adds the token, which has n bytes.
fn push(tokens: &mut Vec<Token>, token: Token, n: usize) -> Result<usize, LexFault>
    ensures ok { IfOk result (λ m. (m ≡ n) × (tokens.new.items ≡ tokens.old.items ++ token ∷ [])) }
    ensures bad { IfErr result (Blames (λ _. ⊥)) }
{
    match tokens.push(token) {
        Ok(()) => Ok(n),
        Err(_) => Err(LexFault::NoMemory),
    }
}

/// Adds the tokens of an annotation; content: what stands behind its first two bytes, up to its end.
fn take_note(
    alloc: Global,
    tokens: &mut Vec<Token>,
    closed: bool,
    at: u32,
    content: &[u8],
) -> Result<(), LexFault>
    requires { at + length content.now ≤ 67108864 }
    ensures ok { OnOk result (GainsNote closed at content.now tokens.old.items tokens.new.items) }
    ensures bad { IfErr result (Blames (IsBadNote closed at content.now)) }
{
    let signs = run(Class::At, content);
    let (_, mut rest) = content.split_at(signs);
    let mut place = at + signs as u32;
    while !rest.is_empty() {
        let front = front_inside(closed, rest);
        match take_plain(alloc, tokens, true, place, rest, front) {
            Ok(n) => {
                let (_, behind) = rest.split_at(n);
                rest = behind;
                place += n as u32;
            }
            Err(fault) => return Err(fault),
        }
    }
    Ok(())
}

/// Adds the tokens of the piece with which the text begins. Answers how many bytes it has.
fn take_piece(
    alloc: Global,
    tokens: &mut Vec<Token>,
    at: u32,
    text: &[u8],
) -> Result<usize, LexFault>
    requires place { at + length text.now ≤ 67108864 }
    requires some { 0 < length text.now }
    ensures ok { IfOk result (λ n. Takes IsPiece at text.now tokens.old.items tokens.new.items n) }
    ensures bad { IfErr result (Blames (IsBad at text.now (front_out text.now))) }
{
    match front_outside(text) {
        Outside::Plain(front) => take_plain(alloc, tokens, false, at, text, front),
        Outside::Note(length, whole, closed) => {
            let (_, behind) = text.split_at(2);
            let (content, _) = behind.split_at(length);
            match take_note(alloc, tokens, closed, at + 2, content) {
                Ok(()) => Ok(whole),
                Err(fault) => Err(fault),
            }
        }
    }
}

/// The tokens of a text, in order, with `End` at the text's length behind them. `BadToken` has the first
/// place at which none stands that may stand there; a number, a text literal or a `/*` that is not as it must
/// be counts from its first byte. Linear in the text. Each token takes memory once at most, beside the list.
///
/// (Java Language Specification, "Lexical Structure"; JML Reference Manual, "JML Lexical Conventions".)
pub fn tokens(alloc: Global, text: &[u8]) -> Result<Vec<Token>, LexFault>
    requires { length text.now ≤ 67108864 }
    ensures cut { IfOk result (λ tokens. Cut text.now tokens.items) }
    ensures bad { IfErr result (BlamesText text.now) }
{
    let mut tokens = Vec::new(alloc);
    let mut rest = text;
    let mut place: u32 = 0;
    while !rest.is_empty() {
        match take_piece(alloc, &mut tokens, place, rest) {
            Ok(n) => {
                let (_, behind) = rest.split_at(n);
                rest = behind;
                place += n as u32;
            }
            Err(fault) => return Err(fault),
        }
    }
    let end = Token {
        kind: TokenKind::End,
        jml: false,
        from: place,
        to: place,
    };
    match tokens.push(end) {
        Ok(()) => Ok(tokens),
        Err(_) => Err(LexFault::NoMemory),
    }
}
