use no_memory::NoMemory;
use thiserror::Error;

/// Why a log is not accepted.
#[derive(Clone, Copy, Debug, PartialEq, Eq, Error)]
pub enum CheckFault {
    /// The first line that does not follow, counted from 1.
    #[error("line {n} does not follow")]
    BadLine { n: u32 },
    /// No memory was to be had.
    #[error("no memory")]
    NoMemory,
}

impl From<NoMemory> for CheckFault {
    ghost use Rattle.std.specs.Prelude.{◌≡◌};
    ghost use Rattle.derivation.specs.declared.fault.CheckFault.TheVariants.{NoMemory as OutOfMemory};

    ghost from_gives = { λ _ fault. fault ≡ OutOfMemory };

    fn from(_refused: NoMemory) -> CheckFault {
        CheckFault::NoMemory
    }
}

/// Why a text is not read.
#[derive(Clone, Copy, Debug, PartialEq, Eq, Error)]
pub enum TextFault {
    /// The place in bytes, counted from 0, of the first thing that cannot stand there, or the text's
    /// length where something is missing.
    #[error("the text is wrong at byte {at}")]
    BadText { at: u32 },
    /// No memory was to be had.
    #[error("no memory")]
    NoMemory,
}

impl From<NoMemory> for TextFault {
    ghost use Rattle.std.specs.Prelude.{◌≡◌};
    ghost use Rattle.derivation.specs.declared.fault.TextFault.TheVariants.{NoMemory as OutOfMemory};

    ghost from_gives = { λ _ fault. fault ≡ OutOfMemory };

    fn from(_refused: NoMemory) -> TextFault {
        TextFault::NoMemory
    }
}
