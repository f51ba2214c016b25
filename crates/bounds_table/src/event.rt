/// One step of a worker.
#[derive(Clone, Copy, Debug, PartialEq, Eq)]
pub enum Event {
    /// Asks for a pair of a round below 8 and a tuple.
    Claim { worker: u32, round: u8, tuple: u32 },
    /// Reads a word of the table.
    CopyWord { worker: u32, word: u32 },
    /// Takes a tuple out of the table.
    Clear { worker: u32, tuple: u32 },
    /// Adds tuples of one word to the kept ones.
    KeepWord { worker: u32, word: u32, bits: u64 },
    /// Reads a word of the kept tuples.
    SeeKept { worker: u32, word: u32 },
    /// Makes a worker that has seen what this one has.
    Split { worker: u32 },
    /// Takes in what another worker knows; that one ends.
    Join { worker: u32, other: u32 },
}

/// What a step answers.
#[derive(Clone, Copy, Debug, PartialEq, Eq)]
pub enum Reply {
    /// Whether the worker gained the pair.
    Claimed(bool),
    /// The word that was read.
    Word(u64),
    Done,
    /// The number of the worker that was made.
    Worker(u32),
}
