ghost use Rattle.std.specs.Prelude.{◌<◌, ◌≤◌, length};
ghost use Rattle.taco_io.specs.Taken.{Taken, Pushes};

/// How a `push` ended.
#[derive(Clone, Copy, Debug, PartialEq, Eq)]
pub enum Push {
    /// The first bytes of the piece, this many and at least one, were taken.
    Took(usize),
    /// The write failed and took nothing. The count of faults rose.
    Failed,
}

/// What takes the output.
///
/// What an implementation tells of itself is `taken`: the bytes that it took, optional, since
/// standard output tells nothing, and a count of faults, which never falls.
pub trait Sink {
    ghost taken: { Self → Taken };

    /// Hands over a piece, of which some bytes at the front are taken.
    fn push(&mut self, piece: &[u8]) -> Push
        requires { 0 < length piece.now }
        ensures pushes { Pushes (taken self.old) (taken self.new) result piece.now }

        // What the clause above says case by case, for callers that do not look at the answer.
        ensures later { (taken self.old).faults ≤ (taken self.new).faults };
}
