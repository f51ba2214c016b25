ghost use Rattle.std.specs.Prelude.{◌≡◌, ℕ, ◌^◌, ◌<◌, [], ◌∷◌, ◌++◌, All, length, OnOk, OnErr};
ghost use Rattle.derivation.specs.Step.{HintsFit};

use crate::line::Line;
use no_memory::NoMemory;
use std::alloc::Global;
use std::marker::Model;

/// A log: its lines in order, at most 4294967295. Contracts see it as the list of its lines, whose
/// hints are numbers of 32 bits.
#[derive(Drop)]
pub struct Log {
    lines: Vec<Line>,
}

impl Model for Log {
    ghost use Rattle.std.specs.Prelude.{List, ◌^◌, ◌<◌, All, length};
    ghost use Rattle.derivation.specs.Step.{Step, HintsFit};

    ghost Value = { List Step };

    ghost view = { λ log. log.lines.items };

    ghost invariant = { λ log. (length log.lines.items < 2 ^ 32) × All HintsFit log.lines.items };
}

impl Log {
    /// A log with no line. It takes no memory.
    pub fn new(alloc: Global) -> Log
        ensures { result ≡ [] }
    {
        Log {
            lines: Vec::new(alloc),
        }
    }

    /// The lines in order.
    pub fn lines(&self) -> &[Line]
        ensures value { result.now ≡ self.now }
        ensures few { length result.now < 2 ^ 32 }
        ensures fit { All HintsFit result.now }
    {
        self.lines.as_slice()
    }

    /// Adds a line at the end. Without memory, or where there are 4294967295 lines already, the log
    /// stays as it was and the line is gone.
    pub fn push(&mut self, line: Line) -> Result<(), NoMemory>
        ensures ok { OnOk result (self.new ≡ self.old ++ line ∷ []) }
        ensures err { OnErr result (self.new ≡ self.old) }
        ensures fit { HintsFit line }
    {
        // Contracts learn here that the hints fit 32 bits.
        let _hints = line.hints();
        if self.lines.as_slice().len() >= u32::MAX as usize {
            return Err(NoMemory);
        }
        self.lines.push(line)?;
        Ok(())
    }

    /// The allocator that the log was made with.
    pub(crate) fn allocator(&self) -> Global {
        *self.lines.allocator()
    }
}
