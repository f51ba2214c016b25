ghost use Rattle.std.specs.Prelude.{◌<◌};
ghost use Rattle.taco_io.specs.Shelf.{Stays};
ghost use Rattle.command_files.specs.Outcomes.{EndsWithout};
ghost use Rattle.command_files.specs.Slots.{ReadsFile};

use crate::outcome::{Outcome, or_no_memory, refusal, silent};
use std::alloc::Global;
use taco_io::{Files, Opened, ReadEnd, read_all};
use taco_report::Status;

/// Why a file gave no text.
#[derive(Clone, Copy, Debug, PartialEq, Eq)]
pub enum FileEnd {
    /// It could not be read.
    Fault,
    /// It has more bytes than its limit.
    TooLong,
    /// No memory was to be had.
    NoMemory,
}

/// The whole of a file of at most `limit` bytes, read through this slot. Time and memory are linear
/// in the bytes that are read, which are at most `limit` + 1.
pub fn read_file<F: Files>(
    alloc: Global,
    files: &mut F,
    slot: u8,
    name: &str,
    limit: u32,
) -> Result<Vec<u8>, FileEnd>
    requires { slot < 2 }
    ensures reads { ReadsFile slot (record { name = name.now; limit = limit }) (F.shelf files.old) (F.shelf files.new) result }
    ensures stays { Stays slot (F.shelf files.old) (F.shelf files.new) }
{
    match files.open(slot, name) {
        Opened::Ready => match read_all(alloc, files, slot, limit) {
            Ok(bytes) => Ok(bytes),
            Err(ReadEnd::TooLong) => Err(FileEnd::TooLong),
            Err(ReadEnd::Fault) => Err(FileEnd::Fault),
            Err(ReadEnd::NoMemory) => Err(FileEnd::NoMemory),
        },
        Opened::Failed => Err(FileEnd::Fault),
        Opened::NoMemory => Err(FileEnd::NoMemory),
    }
}

/// How a request ends whose file in this slot gave no text.
pub fn ended(alloc: Global, slot: u8, end: FileEnd) -> Outcome
    ensures { EndsWithout slot end result }
{
    match end {
        FileEnd::TooLong => or_no_memory(alloc, refusal(alloc, Status::TooLong { slot })),
        FileEnd::Fault => silent(alloc, Status::ReadFault),
        FileEnd::NoMemory => silent(alloc, Status::NoMemory),
    }
}
