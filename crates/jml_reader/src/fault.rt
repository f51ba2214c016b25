use java_lex::Absent;
use thiserror::Error;

/// Why tokens are no expression of a clause. Places are in bytes of the text, counted from 0.
#[derive(Clone, Copy, Debug, PartialEq, Eq, Error)]
pub enum SyntaxFault {
    /// The place of the first token with which no expression begins.
    #[error("a token that stands in no clause at byte {at}")]
    Syntax { at: u32 },
    /// The same, where the token is one that the profile has not.
    #[error("a token that is not supported at byte {at}")]
    Unsupported { part: Absent, at: u32 },
    /// The place of the first token that opens level 65.
    #[error("nesting that is too deep at byte {at}")]
    Deep { at: u32 },
    /// No memory was to be had.
    #[error("no memory")]
    NoMemory,
}
