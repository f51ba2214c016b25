ghost use Rattle.std.specs.Prelude.{◌≡◌, IfOk};

use no_memory::NoMemory;
use std::alloc::Global;
use std::marker::Model;

/// The bytes of a word, a backslash word or a symbol: contracts see it as their list.
#[derive(Debug, Drop)]
pub struct Lexeme {
    bytes: Vec<u8>,
}

impl Model for Lexeme {
    ghost use Rattle.std.specs.Prelude.{List, ℕ};

    ghost Value = { List ℕ };

    ghost view = { λ l. l.bytes.items };
}

impl Lexeme {
    /// A copy of these bytes. Linear in their number.
    pub fn new(alloc: Global, bytes: &[u8]) -> Result<Lexeme, NoMemory>
        ensures { IfOk result (λ l. l ≡ bytes.now) }
    {
        let bytes = Vec::from_slice(alloc, bytes)?;
        Ok(Lexeme { bytes })
    }

    /// These bytes, which are not copied. Takes no memory.
    pub fn from_vec(bytes: Vec<u8>) -> Lexeme
        ensures { result ≡ bytes.items }
    {
        Lexeme { bytes }
    }

    /// The bytes. Takes no memory.
    pub fn bytes(&self) -> &[u8]
        ensures { result.now ≡ self.now }
    {
        self.bytes.as_slice()
    }

    /// The bytes, which are not copied. Takes no memory.
    pub fn into_vec(self) -> Vec<u8>
        ensures { result.items ≡ self }
    {
        let Lexeme { bytes } = self;
        bytes
    }
}

/// What a token is.
#[derive(Debug, Drop)]
pub enum TokenKind {
    /// A word, as an identifier, a keyword or a literal that is a word.
    Word(Lexeme),
    /// A decimal number up to 2147483647.
    Number(u32),
    /// A text between double or between single quotes.
    Quoted,
    /// A backslash and the letters and underscores behind it.
    Slashed(Lexeme),
    /// A separator or an operator.
    Symbol(Lexeme),
    /// The end of the text.
    End,
}

/// A token, and the bytes that it has in the text: from `from` up to `to`, which is not one of them.
#[derive(Debug, Drop)]
pub struct Token {
    pub kind: TokenKind,
    /// Whether it stands in an annotation.
    pub jml: bool,
    pub from: u32,
    pub to: u32,
}
