ghost use Rattle.std.specs.Prelude.{◌≡◌};
ghost use Rattle.java_reading.specs.Tokens.{is_fixed};

use java_lex::Terminal;

/// The tokens that stand at one place of a phrase alone.
#[derive(Clone, Copy, Debug, PartialEq, Eq)]
pub enum Fixed {
    OpenBrace,
    CloseBrace,
    OpenParen,
    CloseParen,
    Semicolon,
    Comma,
    Dot,
    Assign,
    If,
    Else,
    While,
    Return,
    Class,
    Package,
    Import,
    Static,
    Times,
    Requires,
    Ensures,
    Invariant,
    NormalBehavior,
    End,
}

/// Whether the token is this one. Takes no memory.
pub fn is_it(fixed: Fixed, terminal: Terminal) -> bool
    ensures { result ≡ is_fixed fixed terminal }
{
    match fixed {
        Fixed::OpenBrace => matches!(terminal, Terminal::OpenBrace),
        Fixed::CloseBrace => matches!(terminal, Terminal::CloseBrace),
        Fixed::OpenParen => matches!(terminal, Terminal::OpenParen),
        Fixed::CloseParen => matches!(terminal, Terminal::CloseParen),
        Fixed::Semicolon => matches!(terminal, Terminal::Semicolon),
        Fixed::Comma => matches!(terminal, Terminal::Comma),
        Fixed::Dot => matches!(terminal, Terminal::Dot),
        Fixed::Assign => matches!(terminal, Terminal::Assign),
        Fixed::If => matches!(terminal, Terminal::If),
        Fixed::Else => matches!(terminal, Terminal::Else),
        Fixed::While => matches!(terminal, Terminal::While),
        Fixed::Return => matches!(terminal, Terminal::Return),
        Fixed::Class => matches!(terminal, Terminal::Class),
        Fixed::Package => matches!(terminal, Terminal::Package),
        Fixed::Import => matches!(terminal, Terminal::Import),
        Fixed::Static => matches!(terminal, Terminal::Static),
        Fixed::Times => matches!(terminal, Terminal::Times),
        Fixed::Requires => matches!(terminal, Terminal::Requires),
        Fixed::Ensures => matches!(terminal, Terminal::Ensures),
        Fixed::Invariant => matches!(terminal, Terminal::Invariant),
        Fixed::NormalBehavior => matches!(terminal, Terminal::NormalBehavior),
        Fixed::End => matches!(terminal, Terminal::End),
    }
}
