use no_memory::NoMemory;
use thiserror::Error;

/// Why a text is not read as a start.
#[derive(Clone, Copy, Debug, PartialEq, Eq, Error)]
pub enum StateFault {
    /// The place in bytes, counted from 0, of the first line that is not right where it stands, or
    /// the text's length where a line is missing, or where all lines are right and the start does
    /// not fit the problem.
    #[error("the state is wrong at byte {at}")]
    BadState { at: u32 },
    /// No memory was to be had.
    #[error("no memory")]
    NoMemory,
}

impl From<NoMemory> for StateFault {
    ghost use Rattle.std.specs.Prelude.{◌≡◌};
    ghost use Rattle.taco_report.specs.declared.fault.StateFault.TheVariants.{NoMemory as OutOfMemory};

    ghost from_gives = { λ _ fault. fault ≡ OutOfMemory };

    fn from(_refused: NoMemory) -> StateFault {
        StateFault::NoMemory
    }
}
