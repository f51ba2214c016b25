ghost use Rattle.std.specs.Prelude.{◌≤◌, length};
ghost use Rattle.taco_io.specs.Shelf.{Stays};
ghost use Rattle.taco_unit.specs.Scopes.{IsScope};
ghost use Rattle.posed_files.specs.Problems.{java_limit, EndsUnposed, FetchesProblem, PosedIn, Poses};

use command_files::{FileEnd, Outcome, ended, or_no_memory, read_file, refusal};
use heap_core::Problem;
use refusals::Refusal;
use source_units::{Unread, unit_of};
use std::alloc::Global;
use taco_io::Files;
use taco_report::Status;
use taco_unit::Unit;
use taco_words::Job;

/// The most bytes of a Java text.
pub const JAVA_LIMIT: u32 = 262_144;

/// Why a file and a job pose no problem.
#[derive(Clone, Copy, Debug, PartialEq, Eq)]
pub enum Unposed {
    /// The file gave no text, or there was no memory.
    Unread(FileEnd),
    /// The text is that of no unit.
    Refused(Refusal),
    /// The unit lacks the class, or the class the method.
    NoMethod,
}

/// The problem of the job's method in a unit.
fn posed_in(unit: Unit, job: &Job) -> Option<Problem>
    requires { IsScope job.now.scope }
    ensures { PosedIn unit job.now result }
{
    let Some(class) = unit.class_named(job.class.bytes()) else {
        return None;
    };
    let Some(method) = unit.method_named(class, job.method.bytes()) else {
        return None;
    };
    let scope = job.scope;
    Some(Problem {
        unit,
        method,
        scope,
    })
}

/// The problem that a text and a job pose.
fn problem_of(alloc: Global, bytes: &[u8], job: &Job) -> Result<Problem, Unposed>
    requires scope { IsScope job.now.scope }
    requires short { length bytes.now ≤ java_limit }
    ensures { Poses bytes.now job.now result }
{
    match unit_of(alloc, bytes) {
        Ok(unit) => match posed_in(unit, job) {
            Some(problem) => Ok(problem),
            None => Err(Unposed::NoMethod),
        },
        Err(Unread::Refused(fault)) => Err(Unposed::Refused(fault)),
        Err(Unread::NoMemory) => Err(Unposed::Unread(FileEnd::NoMemory)),
    }
}

/// The problem that the job's file, read through slot 0, poses under its class, its method and its
/// scope. Time and memory are linear in the text, but for what `unit_of` says.
pub fn read_problem<F: Files>(alloc: Global, files: &mut F, job: &Job) -> Result<Problem, Unposed>
    requires { IsScope job.now.scope }
    ensures fetches { FetchesProblem job.now (F.shelf files.old) (F.shelf files.new) result }
    ensures stays { Stays 0 (F.shelf files.old) (F.shelf files.new) }
{
    match read_file(alloc, files, 0, job.file.as_str(), JAVA_LIMIT) {
        Ok(bytes) => problem_of(alloc, &bytes, job),
        Err(end) => Err(Unposed::Unread(end)),
    }
}

/// How a request ends that poses no problem.
pub fn without_problem(alloc: Global, why: Unposed) -> Outcome
    ensures { EndsUnposed why result }
{
    match why {
        Unposed::Unread(end) => ended(alloc, 0, end),
        Unposed::Refused(fault) => or_no_memory(alloc, refusal(alloc, Status::Source(fault))),
        Unposed::NoMethod => or_no_memory(alloc, refusal(alloc, Status::NoMethod)),
    }
}
