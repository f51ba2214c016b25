use java_lex::{Absent, LexFault};
use thiserror::Error;

/// Why a text is not read. Places are in bytes, counted from 0.
#[derive(Clone, Copy, Debug, PartialEq, Eq, Error)]
pub enum SourceFault {
    /// The first place at which no token begins, or of a number, a text literal or a `/*` that is not as it must be.
    #[error("no token at byte {at}")]
    BadToken { at: u32 },
    /// The place of the first token with which no text of the grammar begins.
    #[error("a token that stands in no text at byte {at}")]
    Syntax { at: u32 },
    /// The same, where the token is one that the profile has not.
    #[error("a token that is not supported at byte {at}")]
    Unsupported { part: Absent, at: u32 },
    /// The place of the first token that opens level 65.
    #[error("nesting that is too deep at byte {at}")]
    Deep { at: u32 },
    /// No memory was to be had.
    #[error("no memory")]
    NoMemory,
}

impl From<LexFault> for SourceFault {
    ghost use Rattle.std.specs.Prelude.{◌≡◌};
    ghost use Rattle.java_reader.specs.Source.{of_lexer};

    ghost from_gives = { λ lexed fault. fault ≡ of_lexer lexed };

    fn from(lexed: LexFault) -> SourceFault {
        match lexed {
            LexFault::BadToken { at } => SourceFault::BadToken { at },
            LexFault::NoMemory => SourceFault::NoMemory,
        }
    }
}
