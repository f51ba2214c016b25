use java_reader::SourceFault;
use refusals::Refusal;
use thiserror::Error;
use typed_core::NameFault;

/// Why there is no unit.
#[derive(Clone, Copy, Debug, PartialEq, Eq, Error)]
pub enum Unread {
    /// The bytes are the text of none.
    #[error("the text is refused")]
    Refused(Refusal),
    /// No memory was to be had.
    #[error("no memory")]
    NoMemory,
}

impl From<SourceFault> for Unread {
    ghost use Rattle.std.specs.Prelude.{◌≡◌};
    ghost use Rattle.source_units.specs.Told.{of_source};

    ghost from_gives = { λ fault unread. unread ≡ of_source fault };

    fn from(fault: SourceFault) -> Unread {
        match fault {
            SourceFault::BadToken { at } => Unread::Refused(Refusal::BadToken { at }),
            SourceFault::Syntax { at } => Unread::Refused(Refusal::Syntax { at }),
            SourceFault::Unsupported { part, at } => Unread::Refused(Refusal::Unsupported {
                part,
                at,
            }),
            SourceFault::Deep { at } => Unread::Refused(Refusal::Deep { at }),
            SourceFault::NoMemory => Unread::NoMemory,
        }
    }
}

impl From<NameFault> for Unread {
    ghost use Rattle.std.specs.Prelude.{◌≡◌};
    ghost use Rattle.source_units.specs.Told.{of_name};

    ghost from_gives = { λ fault unread. unread ≡ of_name fault };

    fn from(fault: NameFault) -> Unread {
        match fault {
            NameFault::Unknown { at } => Unread::Refused(Refusal::Unknown { at }),
            NameFault::Twice { at } => Unread::Refused(Refusal::Twice { at }),
            NameFault::Kinds { at } => Unread::Refused(Refusal::Kinds { at }),
            NameFault::TooMany { many, at } => Unread::Refused(Refusal::TooMany { many, at }),
            NameFault::NoMemory => Unread::NoMemory,
        }
    }
}
