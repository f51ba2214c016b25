ghost use Rattle.std.specs.Prelude.{◌≡◌, ◌≤◌, [], ◌∷◌, length, IfOk};
ghost use Rattle.heap_core.specs.Start.{Fits};
ghost use Rattle.taco_unit.specs.Scopes.{IsScope};
ghost use Rattle.command_files.specs.Answers.{IsAnswered};
ghost use Rattle.posed_files.specs.Problems.{java_file};
ghost use Rattle.replay_command.specs.ReplayCommand.{HoldsSome, ReplaySays, state_file, state_limit, status_of as status_of_lem};
ghost use Rattle.replay_command.specs.Replaying.{IsShown, ReplaysText};

use command_files::{Outcome, ended, or_no_memory, read_file, refusal};
use heap_core::{Judged, Problem, Start};
use heap_replay::replay;
use no_memory::NoMemory;
use posed_files::{read_problem, without_problem};
use std::alloc::Global;
use taco_io::Files;
use taco_report::{StateFault, Status, read_state, replay_text};
use taco_words::{Job, Text};

/// The most bytes of the text of a state.
pub const STATE_LIMIT: u32 = 262_144;

/// A broken contract has a status of its own.
fn status_of(judged: Judged) -> Status
    ensures { result ≡ status_of_lem judged }
{
    match judged {
        Judged::Breaks(_) => Status::Broken,
        Judged::Outside | Judged::NotAsked | Judged::Meets => Status::Done,
    }
}

/// The replay of a start.
fn shown(alloc: Global, problem: &Problem, start: &Start) -> Result<Outcome, NoMemory>
    requires { Fits start.now problem.now }
    ensures { IfOk result (IsShown problem.now start.now) }
{
    let replayed = replay(alloc, problem, start)?;
    let output = replay_text(alloc, problem, &replayed)?;
    Ok(Outcome {
        status: status_of(replayed.judged),
        output,
    })
}

/// The replay of the start that a text says.
fn replay_of(alloc: Global, problem: &Problem, text: &[u8]) -> Result<Outcome, NoMemory>
    requires { length text.now ≤ state_limit }
    ensures { IfOk result (ReplaysText problem.now text.now) }
{
    match read_state(alloc, problem, text) {
        Ok(start) => shown(alloc, problem, &start),
        Err(StateFault::BadState { at }) => refusal(alloc, Status::BadState { at }),
        Err(StateFault::NoMemory) => Err(NoMemory),
    }
}

/// Replays a method of the job's file, read through slot 0, on the start that the file of the state,
/// read through slot 1, says: runs the method and judges the run. The state is read only where the
/// first file poses a problem. The cost is the length of the texts, the steps of the run and the
/// evaluation of the clauses.
pub fn replay_start<F: Files>(alloc: Global, files: &mut F, job: &Job, state: &Text) -> Outcome
    requires { IsScope job.now.scope }
    ensures { IsAnswered (java_file job.now ∷ state_file state.now ∷ []) (HoldsSome job.now) (ReplaySays job.now state.now) (F.shelf files.old) (F.shelf files.new) result.status result.output.items }
{
    let problem = match read_problem(alloc, files, job) {
        Ok(problem) => problem,
        Err(why) => return without_problem(alloc, why),
    };
    match read_file(alloc, files, 1, state.as_str(), STATE_LIMIT) {
        Ok(text) => or_no_memory(alloc, replay_of(alloc, &problem, &text)),
        Err(end) => ended(alloc, 1, end),
    }
}
