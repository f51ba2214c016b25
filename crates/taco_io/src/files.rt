ghost use Rattle.std.specs.Prelude.{◌≡◌, ◌<◌, length, IsSome};
ghost use Rattle.taco_io.specs.Shelf.{Shelf, Stays, Opens, Pulls};

/// How an `open` ended.
#[derive(Clone, Copy, Debug, PartialEq, Eq)]
pub enum Opened {
    /// The slot is open under the name, and nothing of its content was pulled yet.
    Ready,
    /// The file cannot be had. The count of faults of its name rose, and no slot changed.
    Failed,
    /// No memory was to be had. No slot and no count changed.
    NoMemory,
}

/// How a `pull` ended.
#[derive(Clone, Copy, Debug, PartialEq, Eq)]
pub enum Pull {
    /// This many bytes, at least one, were moved to the front of the buffer.
    Got(usize),
    /// Nothing is left.
    End,
    /// The read failed and took nothing. The count of faults of the slot's name rose.
    Failed,
}

/// Files that are read through two slots, 0 and 1.
///
/// What an implementation tells of itself is its `shelf`: the content of each named file and the
/// rest of each slot, both optional, since a real file tells nothing; the name of each open slot;
/// and for each name a count of faults, which never falls. No call changes a content, and a call
/// on one slot leaves the other as it is.
pub trait Files {
    ghost shelf: { Self → Shelf };

    /// Opens the file of this name in a slot, in place of what the slot had.
    fn open(&mut self, slot: u8, name: &str) -> Opened
        requires { slot < 2 }
        ensures stays { Stays slot (shelf self.old) (shelf self.new) }
        ensures opens { Opens slot name.now (shelf self.old) (shelf self.new) result };

    /// Moves some bytes of the slot's rest into the buffer.
    fn pull(&mut self, slot: u8, buffer: &mut [u8]) -> Pull
        requires is_open { IsSome ((shelf self.old).name slot) }
        requires room { 0 < length buffer.old }
        ensures stays { Stays slot (shelf self.old) (shelf self.new) }
        ensures name { (shelf self.new).name slot ≡ (shelf self.old).name slot }
        ensures pulls { Pulls slot (shelf self.old) (shelf self.new) result buffer.new };
}
