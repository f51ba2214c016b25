ghost use Rattle.std.specs.Prelude.{◌≡◌, ◌<◌, ◌≤◌, length, vec_capacity, vec_len, IfOk};
ghost use Rattle.taco_io.specs.Taken.{Pushes};

use crate::plan::FaultPlan;
use crate::sink::{Push, Sink};
use no_memory::NoMemory;
use std::alloc::Global;

/// A sink in memory, which tells everything. Each push takes at most `most` bytes; the calls of
/// the given numbers fail, as does a push without room.
#[derive(Debug, Drop)]
pub struct MemSink {
    bytes: Vec<u8>,
    room: usize,
    most: usize,
    plan: FaultPlan,
    ghost moves: { 0 < most },
    ghost reserved: { room ≤ vec_capacity bytes },
    ghost within: { vec_len bytes ≤ room },
}

impl MemSink {
    ghost use Rattle.taco_io.specs.MemSinkTold.{IsFresh, bytes_of};

    /// A sink with room for `room` bytes, the only memory that it takes. The calls whose numbers,
    /// counted from 0, stand in `failing` fail.
    pub fn new(
        alloc: Global,
        room: usize,
        most: usize,
        failing: Vec<u64>,
    ) -> Result<MemSink, NoMemory>
        requires { 0 < most }
        ensures { IfOk result (IsFresh room most failing.items) }
    {
        Ok(MemSink {
            bytes: Vec::with_capacity(alloc, room)?,
            room,
            most,
            plan: FaultPlan::new(failing),
        })
    }

    /// What was taken.
    pub fn bytes(&self) -> &[u8]
        ensures { result.now ≡ bytes_of self.now }
    {
        self.bytes.as_slice()
    }
}

impl Sink for MemSink {
    ghost use Rattle.taco_io.specs.MemSinkTold.{taken_of, pushed_of, IsCounted};

    ghost taken = { taken_of };

    fn push(&mut self, piece: &[u8]) -> Push
        requires { 0 < length piece.now }
        ensures pushes { Pushes (taken_of self.old) (taken_of self.new) result piece.now }
        ensures later { (taken_of self.old).faults ≤ (taken_of self.new).faults }

        // It takes as much as it may, and fails exactly where it is to fail or no room is left.
        ensures pushed { result ≡ pushed_of self.old (length piece.now) }
        ensures counted { IsCounted self.old self.new }
    {
        let left = self.room - self.bytes.len();
        if self.plan.is_next_due() || left == 0 {
            self.plan.fail();
            return Push::Failed;
        }
        let count = piece.len().min(self.most).min(left);
        self.bytes.extend_from_slice(&piece[..count]).unwrap();
        Push::Took(count)
    }
}
