use no_memory::NoMemory;
use thiserror::Error;

/// Why a text is not cut into tokens.
#[derive(Clone, Copy, Debug, PartialEq, Eq, Error)]
pub enum LexFault {
    /// The place in bytes, counted from 0, of the first byte at which no token begins, or of a number, a
    /// text literal or a `/*` that is not as it must be.
    #[error("no token at byte {at}")]
    BadToken { at: u32 },
    /// No memory was to be had.
    #[error("no memory")]
    NoMemory,
}

impl From<NoMemory> for LexFault {
    ghost use Rattle.std.specs.Prelude.{◌≡◌};
    ghost use Rattle.java_lex.specs.declared.fault.LexFault.TheVariants.{NoMemory as OutOfMemory};

    ghost from_gives = { λ _ fault. fault ≡ OutOfMemory };

    fn from(_refused: NoMemory) -> LexFault {
        LexFault::NoMemory
    }
}
