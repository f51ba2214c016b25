use java_lex::Token;
use no_memory::NoMemory;
use std::alloc::{AllocError, AllocFailed};

/// Why a part is not read.
#[derive(Drop)]
pub enum Stop<'a> {
    /// No memory was to be had.
    Memory,
    /// The tokens from the first on with which no such part begins.
    Wrong(&'a [Token]),
    /// The tokens from the one on that opens a level too many.
    Deep(&'a [Token]),
}

impl From<NoMemory> for Stop<'_> {
    ghost use Rattle.std.specs.Prelude.{◌≡◌};
    ghost use Rattle.reading_core.specs.declared.stop.Stop.TheVariants.{Memory};

    ghost from_gives = { λ _ stop. stop ≡ Memory };

    fn from(_refused: NoMemory) -> Self {
        Stop::Memory
    }
}

impl From<AllocError> for Stop<'_> {
    ghost use Rattle.std.specs.Prelude.{◌≡◌};
    ghost use Rattle.reading_core.specs.declared.stop.Stop.TheVariants.{Memory};

    ghost from_gives = { λ _ stop. stop ≡ Memory };

    fn from(_refused: AllocError) -> Self {
        Stop::Memory
    }
}

impl<T: Drop> From<AllocFailed<T>> for Stop<'_> {
    ghost use Rattle.std.specs.Prelude.{◌≡◌};
    ghost use Rattle.reading_core.specs.declared.stop.Stop.TheVariants.{Memory};

    ghost from_gives = { λ _ stop. stop ≡ Memory };

    fn from(_refused: AllocFailed<T>) -> Self {
        Stop::Memory
    }
}
