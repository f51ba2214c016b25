ghost use Rattle.std.specs.Prelude.{◌≡◌};
ghost use Rattle.taco_report.specs.Statuses.{code_of};

use refusals::Refusal;

/// How a run of the program ended.
#[derive(Clone, Copy, Debug, PartialEq, Eq)]
pub enum Status {
    /// No run within the scope meets the precondition and breaks the contract.
    Holds,
    /// A run does, and it was printed.
    Violated,
    /// What was asked for was done and printed: a log all of whose lines follow, values or a
    /// refutation, the marks of the tuples, a judgement other than of a broken contract, a summary.
    Done,
    /// A line of the log does not follow, or the replayed start breaks the contract.
    Broken,
    /// The words are no request.
    Usage,
    /// What the words ask for is not done so far.
    NotBuilt,
    /// The bytes of the Java text stand for no unit.
    Source(Refusal),
    /// The unit lacks the class, or the class the method.
    NoMethod,
    /// The state's text is that of no start: the place, in bytes from 0, is that of its first line
    /// that is not right, or the text's length.
    BadState { at: u32 },
    /// The text in this slot is not of its format: the place, in bytes from 0, is that of its first
    /// fault.
    BadText { slot: u8, at: u32 },
    /// The file of this slot has more bytes than its limit.
    TooLong { slot: u8 },
    /// The search learnt as many lines as its budget says, without a verdict.
    Unknown,
    /// A file could not be read.
    ReadFault,
    /// The output could not be written to its end.
    WriteFault,
    /// No memory was to be had.
    NoMemory,
}

impl Status {
    /// The status with which the program ends: 0 where all is well, 1 for a broken contract or log,
    /// 2 to 4 for a refusal, 5 to 8 for an end without an answer.
    pub fn code(&self) -> u8
        ensures { result ≡ code_of self.now }
    {
        match self {
            Status::Holds | Status::Done => 0,
            Status::Violated | Status::Broken => 1,
            Status::Usage => 2,
            Status::NotBuilt
            | Status::Source(_)
            | Status::NoMethod
            | Status::BadState { .. }
            | Status::BadText { .. } => 3,
            Status::TooLong { .. } => 4,
            Status::Unknown => 5,
            Status::ReadFault => 6,
            Status::WriteFault => 7,
            Status::NoMemory => 8,
        }
    }
}
