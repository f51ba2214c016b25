ghost use Rattle.std.specs.Prelude.{◌≡◌, map};
ghost use Rattle.java_lex.specs.Spellings.{spelled_in};
ghost use Rattle.java_lex.specs.Terminals.{terminal_of};

use crate::spelling::{Absent, Spelling, Terminal};
use crate::tables::{SLASHED, SYMBOLS, WORDS};
use crate::token::{Token, TokenKind};

/// What these bytes are by the table.
fn spelled(table: &[Spelling], jml: bool, bytes: &[u8]) -> Option<Terminal>
    ensures { result ≡ spelled_in jml bytes.now (map (λ s. (s.0.now, s.1, s.2)) table.now) }
{
    for (text, in_jml, terminal) in table {
        if (jml || !*in_jml) && *text == bytes {
            return Some(*terminal);
        }
    }
    None
}

impl Token {
    /// What the token is to the grammar. A word that is not reserved where it stands is a name; a backslash
    /// word that is not in the grammar is absent. Takes no memory.
    pub fn terminal(&self) -> Terminal
        ensures { result ≡ terminal_of self.now }
    {
        match &self.kind {
            TokenKind::Word(word) => spelled(&WORDS, self.jml, word.bytes()).unwrap_or(
                Terminal::Name,
            ),
            TokenKind::Number(_) => Terminal::Number,
            TokenKind::Quoted => Terminal::Absent(Absent::Text),
            TokenKind::Slashed(word) => spelled(&SLASHED, true, word.bytes()).unwrap_or(
                Terminal::Absent(Absent::Jml),
            ),
            TokenKind::Symbol(symbol) => spelled(&SYMBOLS, self.jml, symbol.bytes()).unwrap_or(
                Terminal::Reserved,
            ),
            TokenKind::End => Terminal::End,
        }
    }
}
