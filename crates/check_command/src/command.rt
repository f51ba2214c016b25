ghost use Rattle.std.specs.Prelude.{[], ◌∷◌, IfOk};
ghost use Rattle.boolean_trial.specs.Plain.{IsPlain};
ghost use Rattle.taco_unit.specs.Scopes.{IsScope};
ghost use Rattle.command_files.specs.Answers.{IsAnswered, NoSecond};
ghost use Rattle.posed_files.specs.Problems.{java_file};
ghost use Rattle.check_command.specs.CheckCommand.{CheckSays};
ghost use Rattle.check_command.specs.Decided.{Checks, Tells};

use boolean_trial::{is_plain, tried};
use command_files::{Outcome, or_no_memory, refusal};
use heap_core::Problem;
use no_memory::NoMemory;
use posed_files::{read_problem, without_problem};
use std::alloc::Global;
use taco_io::Files;
use taco_report::{Status, holds_text, violated_text};
use taco_words::Job;

/// Tries a plain method.
fn try_method(alloc: Global, problem: &Problem) -> Result<Outcome, NoMemory>
    requires { IsPlain problem.now.unit problem.now.method }
    ensures { IfOk result (Tells problem.now) }
{
    match tried(alloc, problem)? {
        Some(breach) => Ok(Outcome {
            status: Status::Violated,
            output: violated_text(alloc, problem, &breach.start, breach.part)?,
        }),
        None => Ok(Outcome {
            status: Status::Holds,
            output: holds_text(alloc, problem)?,
        }),
    }
}

/// Tries a method, if it is one of those that are checked so far.
fn decide(alloc: Global, problem: &Problem) -> Result<Outcome, NoMemory>
    ensures { IfOk result (Checks problem.now) }
{
    if is_plain(&problem.unit, problem.method) {
        try_method(alloc, problem)
    } else {
        refusal(alloc, Status::NotBuilt)
    }
}

/// Checks a method of the job's file, read through slot 0. A plain method is decided by the trial of
/// all its arguments, of which there are at most 2 to the number of its parameters; every other method
/// is refused so far. The plan changes nothing.
pub fn check_method<F: Files>(alloc: Global, files: &mut F, job: &Job) -> Outcome
    requires { IsScope job.now.scope }
    ensures { IsAnswered (java_file job.now ∷ []) NoSecond (CheckSays job.now) (F.shelf files.old) (F.shelf files.new) result.status result.output.items }
{
    match read_problem(alloc, files, job) {
        Ok(problem) => or_no_memory(alloc, decide(alloc, &problem)),
        Err(why) => without_problem(alloc, why),
    }
}
