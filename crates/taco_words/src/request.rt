ghost use Rattle.std.specs.Prelude.{◌≡◌, IfOk};

use no_memory::NoMemory;
use std::alloc::{AllocError, AllocFailed, Global};
use std::marker::Model;
use taco_unit::{Name, Plan, Scope};
use thiserror::Error;

/// A word of the command line: contracts see it as the list of its bytes.
#[derive(Debug, Drop)]
pub struct Text {
    text: String,
}

impl Model for Text {
    ghost use Rattle.std.specs.Prelude.{List, ℕ, string_bytes};

    ghost Value = { List ℕ };

    ghost view = { λ t. string_bytes t.text };
}

impl Text {
    /// A copy of this text. Linear in its length.
    pub fn new(alloc: Global, text: &str) -> Result<Text, NoMemory>
        ensures { IfOk result (λ t. t ≡ text.now) }
    {
        let text = String::from_str(alloc, text)?;
        Ok(Text { text })
    }

    /// The text. Takes no memory.
    pub fn as_str(&self) -> &str
        ensures { result.now ≡ self.now }
    {
        self.text.as_str()
    }
}

/// The numbers of workers, counted from 0, of which each does its next step in turn: contracts see it
/// as the list of its entries.
#[derive(Debug, Drop)]
pub struct Schedule {
    entries: Vec<u32>,
}

impl Model for Schedule {
    ghost use Rattle.std.specs.Prelude.{List, ℕ};

    ghost Value = { List ℕ };

    ghost view = { λ s. s.entries.items };
}

impl Schedule {
    /// A schedule of these entries. Takes no memory.
    pub fn new(entries: Vec<u32>) -> Schedule
        ensures { result ≡ entries.items }
    {
        Schedule { entries }
    }

    /// The entries in order. Takes no memory.
    pub fn entries(&self) -> &[u32]
        ensures { result.now ≡ self.now }
    {
        self.entries.as_slice()
    }
}

/// A method of a class of a file, with the scope and the plan by which it is looked at.
#[derive(Drop)]
pub struct Job {
    pub file: Text,
    pub class: Name,
    pub method: Name,
    pub scope: Scope,
    pub plan: Plan,
}

/// What is asked for.
#[derive(Drop)]
pub enum Request {
    /// Whether the method keeps its contract, with a bound on the conflicts of the search, or 0.
    Check(Job, u64),
    /// Which tuples occur in no good heap, where the workers follow the schedule if there is one.
    Bounds(Job, Option<Schedule>),
    /// How the method judges the start in the second file.
    Replay(Job, Text),
    /// Values that satisfy the formula, or a log that refutes it, with a bound on the lines that the
    /// search learns, or 0.
    Sat(Text, u64),
    /// Whether the log of the second file follows from the formula of the first.
    Proof(Text, Text),
    /// A unit that is made from this number, and its verdict.
    Stress(u32),
}

/// Why words are no request.
#[derive(Clone, Copy, Debug, PartialEq, Eq, Error)]
pub enum RequestFault {
    #[error("the words are no request")]
    Usage,
    #[error("no memory")]
    NoMemory,
}

impl From<AllocError> for RequestFault {
    ghost use Rattle.std.specs.Prelude.{◌≡◌};
    ghost use Rattle.taco_words.specs.declared.request.RequestFault.TheVariants as fault;

    ghost from_gives = { λ _ e. e ≡ fault.NoMemory };

    fn from(_refused: AllocError) -> RequestFault {
        RequestFault::NoMemory
    }
}

impl From<NoMemory> for RequestFault {
    ghost use Rattle.std.specs.Prelude.{◌≡◌};
    ghost use Rattle.taco_words.specs.declared.request.RequestFault.TheVariants as fault;

    ghost from_gives = { λ _ e. e ≡ fault.NoMemory };

    fn from(_refused: NoMemory) -> RequestFault {
        RequestFault::NoMemory
    }
}

impl<T: Drop> From<AllocFailed<T>> for RequestFault {
    ghost use Rattle.std.specs.Prelude.{◌≡◌};
    ghost use Rattle.taco_words.specs.declared.request.RequestFault.TheVariants as fault;

    ghost from_gives = { λ _ e. e ≡ fault.NoMemory };

    fn from(_refused: AllocFailed<T>) -> RequestFault {
        RequestFault::NoMemory
    }
}
