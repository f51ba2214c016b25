ghost use Rattle.std.specs.Prelude.{IfOk};
ghost use Rattle.taco_report.specs.Statuses.{IsRefusal};
ghost use Rattle.taco_report.specs.RefusalLines.{refusal_line};
ghost use Rattle.command_files.specs.Outcomes.{IsOrNoMemory, IsOutcome, IsSilent};

use no_memory::NoMemory;
use std::alloc::Global;
use taco_report::{Status, refusal_text};

/// What a request comes to: its status, and all that is to be printed.
#[derive(Drop)]
pub struct Outcome {
    pub status: Status,
    pub output: Vec<u8>,
}

/// An outcome without output. Takes no memory.
pub fn silent(alloc: Global, status: Status) -> Outcome
    ensures { IsSilent status result }
{
    Outcome {
        status,
        output: Vec::new(alloc),
    }
}

/// The outcome, or the want of memory as one without output.
pub fn or_no_memory(alloc: Global, outcome: Result<Outcome, NoMemory>) -> Outcome
    ensures { IsOrNoMemory outcome result }
{
    match outcome {
        Ok(outcome) => outcome,
        Err(NoMemory) => silent(alloc, Status::NoMemory),
    }
}

/// A refusal with its line. The status is one of code 2 to 4.
pub fn refusal(alloc: Global, status: Status) -> Result<Outcome, NoMemory>
    requires { IsRefusal status }
    ensures { IfOk result (IsOutcome status (refusal_line status)) }
{
    let output = refusal_text(alloc, &status)?;
    Ok(Outcome { status, output })
}
