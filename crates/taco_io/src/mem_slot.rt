ghost use Rattle.std.specs.Prelude.{◌≡◌, ◌<◌, ◌≤◌, length, min, IfOk};

use crate::files::Pull;
use std::alloc::{AllocError, Global};

/// An open slot: a copy of a file's name and content, and the place of the next byte, counted
/// from 0.
#[derive(Debug, Drop)]
pub struct MemSlot {
    name: Vec<u8>,
    content: Vec<u8>,
    at: usize,
    ghost within: { at ≤ length content.items },
}

impl MemSlot {
    ghost use Rattle.taco_io.specs.Slots.{rest_of, pull_of, Moves};

    /// A slot with all of a file's content left.
    pub(crate) fn new(alloc: Global, name: &[u8], content: &[u8]) -> Result<MemSlot, AllocError>
        ensures named { IfOk result (λ slot. slot.name.items ≡ name.now) }
        ensures whole { IfOk result (λ slot. rest_of slot ≡ content.now) }
    {
        Ok(MemSlot {
            name: Vec::from_slice(alloc, name)?,
            content: Vec::from_slice(alloc, content)?,
            at: 0,
        })
    }

    /// Moves at most `most` bytes of what is left to the front of the buffer.
    pub(crate) fn give(&mut self, buffer: &mut [u8], most: usize) -> Pull
        requires some { 0 < most }
        requires room { 0 < length buffer.old }
        ensures given { result ≡ pull_of (min (length buffer.old) most) (length (rest_of self.old)) }
        ensures name { self.new.name ≡ self.old.name }
        ensures moved { Moves result (rest_of self.old) (rest_of self.new) buffer.new }
    {
        let (_, rest) = self.content.split_at(self.at);
        if rest.is_empty() {
            return Pull::End;
        }
        let count = buffer.len().min(most).min(rest.len());
        let (moved, _) = rest.split_at(count);
        buffer[..count].copy_from_slice(moved);
        self.at += count;
        Pull::Got(count)
    }
}
