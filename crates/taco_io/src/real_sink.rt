ghost use Rattle.std.specs.Prelude.{◌≡◌, None};

use crate::sink::{Push, Sink};
use std::io::Write;

/// A writer of the system, as standard output. It tells nothing of the bytes taken, and counts
/// the calls that failed.
#[derive(Drop)]
pub struct RealSink<W: Write + Drop> {
    out: W,
    faults: u64,
}

impl<W: Write + Drop> RealSink<W> {
    /// Over this writer, with no fault yet.
    pub fn new(out: W) -> RealSink<W>
        ensures { ⟦<RealSink<W> as Sink>⟧.taken result ≡ record { bytes = None; faults = 0 } }
    {
        RealSink { out, faults: 0 }
    }
}

impl<W: Write + Drop> Sink for RealSink<W> {
    ghost taken = { λ sink. record { bytes = None; faults = sink.faults } };

    fn push(&mut self, piece: &[u8]) -> Push {
        match self.out.write(piece) {
            Ok(n) if n > 0 => Push::Took(n),
            _ => {
                self.faults = self.faults.saturating_add(1);
                Push::Failed
            }
        }
    }
}
