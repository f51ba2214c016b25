ghost use Rattle.std.specs.Prelude.{◌≡◌, ◌<◌, ◌≤◌, ◌↔◌, ◌||◌, min, [], length, option_map, unwrap_or, IsTrue, IsSome};
ghost use Rattle.taco_io.specs.Shelf.{Stays, Opens, Pulls};
ghost use Rattle.taco_io.specs.Slots.{content_of, rest_of, left_in, pull_of, Moves};

use crate::files::{Files, Opened, Pull};
use crate::mem_slot::MemSlot;
use crate::plan::FaultPlan;
use std::alloc::Global;

/// Files in memory, which tell everything. Each pull moves at most `most` bytes, and the calls
/// of the given numbers fail, as does an `open` of a name that is not there.
#[derive(Debug, Drop)]
pub struct MemFiles {
    alloc: Global,
    contents: Vec<(Vec<u8>, Vec<u8>)>,
    first: Option<MemSlot>,
    second: Option<MemSlot>,
    most: usize,
    plan: FaultPlan,
    ghost moves: { 0 < most },
}

/// The content of the first file of this name.
fn find_content<'a>(contents: &'a [(Vec<u8>, Vec<u8>)], name: &[u8]) -> Option<&'a [u8]>
    ensures { option_map (λ content. content.now) result ≡ content_of contents.now name.now }
{
    for file in contents {
        if file.0.as_slice() == name {
            return Some(file.1.as_slice());
        }
    }
    None
}

/// As `MemSlot::give`, of an open slot.
fn give(slot: &mut Option<MemSlot>, buffer: &mut [u8], most: usize) -> Pull
    requires is_open { IsSome slot.old }
    requires some { 0 < most }
    requires room { 0 < length buffer.old }
    ensures given { result ≡ pull_of (min (length buffer.old) most) (left_in slot.old) }
    ensures name { option_map (λ opened. opened.name.items) slot.new ≡ option_map (λ opened. opened.name.items) slot.old }
    ensures moved { Moves result (unwrap_or (option_map rest_of slot.old) []) (unwrap_or (option_map rest_of slot.new) []) buffer.new }
{
    match slot {
        Some(opened) => opened.give(buffer, most),
        None => Pull::End,
    }
}

impl MemFiles {
    ghost use Rattle.taco_io.specs.MemFilesTold.{IsFresh};

    /// Files with these names and contents, of which the first of a name counts. No slot is open.
    /// It takes no memory; the allocator is for the copies that `open` makes. The calls whose
    /// numbers, counted from 0, stand in `failing` fail.
    pub fn new(
        alloc: Global,
        contents: Vec<(Vec<u8>, Vec<u8>)>,
        most: usize,
        failing: Vec<u64>,
    ) -> MemFiles
        requires { 0 < most }
        ensures { IsFresh contents.items most failing.items result }
    {
        MemFiles {
            alloc,
            contents,
            first: None,
            second: None,
            most,
            plan: FaultPlan::new(failing),
        }
    }
}

impl Files for MemFiles {
    ghost use Rattle.taco_io.specs.MemFilesTold.{shelf_of, fails_to_open, pulled_of, IsCounted};

    ghost shelf = { shelf_of };

    fn open(&mut self, slot: u8, name: &str) -> Opened
        requires { slot < 2 }
        ensures stays { Stays slot (shelf_of self.old) (shelf_of self.new) }
        ensures opens { Opens slot name.now (shelf_of self.old) (shelf_of self.new) result }

        // It fails exactly where it is to fail.
        ensures failed { (result ≡ Opened.Failed) ↔ IsTrue (fails_to_open self.old name.now) }
        ensures counted { IsCounted self.old self.new }
    {
        let due = self.plan.is_next_due();
        let name = name.as_bytes();
        let found = find_content(&self.contents, name);
        match found {
            Some(content) if !due => match MemSlot::new(self.alloc, name, content) {
                Ok(opened) => {
                    match slot {
                        0 => self.first = Some(opened),
                        _ => self.second = Some(opened),
                    }
                    Opened::Ready
                }
                Err(_) => Opened::NoMemory,
            },
            _ => {
                self.plan.fail();
                Opened::Failed
            }
        }
    }

    fn pull(&mut self, slot: u8, buffer: &mut [u8]) -> Pull
        requires is_open { IsSome ((shelf_of self.old).name slot) }
        requires room { 0 < length buffer.old }
        ensures stays { Stays slot (shelf_of self.old) (shelf_of self.new) }
        ensures name { (shelf_of self.new).name slot ≡ (shelf_of self.old).name slot }
        ensures pulls { Pulls slot (shelf_of self.old) (shelf_of self.new) result buffer.new }

        // It moves as much as it may, and fails exactly where it is to fail.
        ensures pulled { result ≡ pulled_of self.old slot (length buffer.old) }
        ensures counted { IsCounted self.old self.new }
    {
        if self.plan.is_next_due() {
            self.plan.fail();
            return Pull::Failed;
        }
        match slot {
            0 => give(&mut self.first, buffer, self.most),
            _ => give(&mut self.second, buffer, self.most),
        }
    }
}
