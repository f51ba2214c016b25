ghost use Rattle.std.specs.Prelude.{◌≡◌};
ghost use Rattle.typed_core.specs.Resolved.{name_fault as name_fault_lem};

use declared_names::{Cause, Fault};
use no_memory::NoMemory;
use refusals::Many;
use thiserror::Error;

/// Why a tree stands for no unit. A place is counted in bytes, from 0.
#[derive(Clone, Copy, Debug, PartialEq, Eq, Error)]
pub enum NameFault {
    /// A name has no meaning where it stands.
    #[error("unknown name at byte {at}")]
    Unknown { at: u32 },
    /// A name, or a modifier, is there already.
    #[error("second declaration at byte {at}")]
    Twice { at: u32 },
    /// A value, a call or a modifier is of the wrong kind.
    #[error("wrong kind at byte {at}")]
    Kinds { at: u32 },
    /// The first of its sort beyond a limit.
    #[error("too many at byte {at}")]
    TooMany { many: Many, at: u32 },
    /// No memory was to be had.
    #[error("no memory")]
    NoMemory,
}

impl From<NoMemory> for NameFault {
    ghost use Rattle.std.specs.Prelude.{◌≡◌};
    ghost use Rattle.typed_core.specs.declared.fault.NameFault.TheVariants.{NoMemory as OutOfMemory};

    ghost from_gives = { λ _ fault. fault ≡ OutOfMemory };

    fn from(_refused: NoMemory) -> NameFault {
        NameFault::NoMemory
    }
}

/// The answer for this fault.
pub(crate) fn name_fault(fault: Fault) -> NameFault
    ensures { result ≡ name_fault_lem fault }
{
    let at = fault.at;
    match fault.cause {
        Cause::Unknown => NameFault::Unknown { at },
        Cause::Twice => NameFault::Twice { at },
        Cause::Kinds => NameFault::Kinds { at },
        Cause::TooMany(many) => NameFault::TooMany { many, at },
    }
}
