ghost use Rattle.std.specs.Prelude.{◌≡◌, ℕ, IsSome};
ghost use Rattle.taco_io.specs.Shelf.{Stays};
ghost use Rattle.taco_io.specs.Transfers.{ReadsAll, TakesAtMost, WritesAll, most_taken};

use crate::files::{Files, Pull};
use crate::sink::{Push, Sink};
use std::alloc::Global;
use thiserror::Error;

/// How many bytes one pull asks for at most.
const PIECE: usize = 4096;

/// Why `read_all` has no text.
#[derive(Clone, Copy, Debug, PartialEq, Eq, Error)]
pub enum ReadEnd {
    /// A pull failed: the count of faults of the slot's name rose.
    #[error("the read failed")]
    Fault,
    /// More bytes are left than the limit.
    #[error("more bytes than the limit")]
    TooLong,
    /// No memory was to be had for the bytes.
    #[error("no memory")]
    NoMemory,
}

/// Why `write_all` did not write everything.
#[derive(Clone, Copy, Debug, PartialEq, Eq, Error)]
#[error("the write failed after {sent} bytes")]
pub struct WriteFault {
    /// How many bytes went out before the push that failed: fewer than all.
    pub sent: usize,
}

/// All that is left of an open slot, where this is at most `limit` bytes. It takes at most
/// `limit` + 1 bytes, and no pull follows the one that took so many: where none of these bytes
/// failed the answer is not Fault. Time is linear in the bytes taken, however small each pull is.
pub fn read_all<F: Files>(
    alloc: Global,
    files: &mut F,
    slot: u8,
    limit: u32,
) -> Result<Vec<u8>, ReadEnd>
    requires { IsSome ((F.shelf files.old).name slot) }
    ensures reads { ReadsAll slot limit (F.shelf files.old) (F.shelf files.new) result }
    ensures stays { Stays slot (F.shelf files.old) (F.shelf files.new) }
    ensures name { (F.shelf files.new).name slot ≡ (F.shelf files.old).name slot }
    ensures few { TakesAtMost (most_taken limit result) ((F.shelf files.old).rest slot) ((F.shelf files.new).rest slot) }
{
    let mut bytes = Vec::new(alloc);
    let mut piece = [0u8; PIECE];
    while bytes.len() <= limit as usize {
        let most = (limit as usize + 1 - bytes.len()).min(PIECE);
        match files.pull(slot, &mut piece[..most]) {
            Pull::Got(n) => {
                if bytes.extend_from_slice(&piece[..n]).is_err() {
                    return Err(ReadEnd::NoMemory);
                }
            }
            Pull::End => return Ok(bytes),
            Pull::Failed => return Err(ReadEnd::Fault),
        }
    }
    Err(ReadEnd::TooLong)
}

/// Writes all bytes, in as many pushes as it takes. It takes no memory, and time linear in the
/// bytes and the pushes.
pub fn write_all<K: Sink>(sink: &mut K, bytes: &[u8]) -> Result<(), WriteFault>
    ensures { WritesAll bytes.now (K.taken sink.old) (K.taken sink.new) result }
{
    let mut sent = 0;
    while sent < bytes.len() {
        let (_, rest) = bytes.split_at(sent);
        match sink.push(rest) {
            Push::Took(n) => sent += n,
            Push::Failed => return Err(WriteFault { sent }),
        }
    }
    Ok(())
}
