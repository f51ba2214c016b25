ghost use Rattle.std.specs.Prelude.{◌≡◌, ◌≤◌, [], false, length, IfOk};
ghost use Rattle.heap_core.specs.Judge.{judged_run as judged_run_lem, run_of};
ghost use Rattle.heap_run.specs.declared.machine.Outcome.TheVariants.{Unknown};
ghost use Rattle.heap_run.specs.Runs.{Runs};
ghost use Rattle.heap_replay.specs.Replays.{IsKnown, is_of_run, replayed, shown_with};

use crate::broken::judged_end;
use crate::clauses::{all_invariants, any_out, needs_of};
use crate::good::is_asked;
use heap_core::{Judged, Object, Part, Problem, Start};
use heap_run::{Outcome, RunEnd, run};
use no_memory::NoMemory;
use sqlite_items::Items;
use std::alloc::Global;

/// What a replay shows of a start.
#[derive(Drop)]
pub struct Replayed {
    pub judged: Judged,
    /// How the run ended. `Unknown` exactly where the start is not asked about or leaves the scope.
    pub result: Outcome,
    /// The heap that the run left, which has no objects where the result is `Unknown`.
    pub end_heap: Items<Object>,
}

/// What is shown where the judgement is not one of the run.
fn untold(alloc: Global, judged: Judged) -> Replayed
    requires { is_of_run judged ≡ false }
    ensures { result ≡ record { judged = judged; result = Unknown; end_heap = [] } }
{
    Replayed {
        judged,
        result: Outcome::Unknown,
        end_heap: Items::new(alloc),
    }
}

/// What is shown with a judgement, where the run ends so.
fn shown(alloc: Global, judged: Judged, end: RunEnd) -> Replayed
    ensures { result ≡ shown_with judged end.outcome end.heap }
{
    let RunEnd { outcome, heap } = end;
    match judged {
        Judged::Outside | Judged::NotAsked => untold(alloc, judged),
        Judged::Breaks(_) | Judged::Meets => Replayed {
            judged,
            result: outcome,
            end_heap: heap,
        },
    }
}

/// The judgement of a run that ends so.
fn judged_run(
    alloc: Global,
    problem: &Problem,
    start: &Start,
    end: &RunEnd,
) -> Result<Judged, NoMemory>
    requires runs { Runs problem.now start.now end.now }
    requires before { length start.now.objects ≤ problem.now.scope.objects }
    requires after { length end.now.heap ≤ problem.now.scope.objects }
    ensures { IfOk result (λ judged. judged ≡ judged_run_lem problem.now start.now (run_of problem.now start.now)) }
{
    let heap = end.heap.as_slice();
    match end.outcome {
        Outcome::Value(value) => judged_end(alloc, problem, start, Some(value), heap),
        Outcome::Nothing => judged_end(alloc, problem, start, None, heap),
        Outcome::Thrown => Ok(Judged::Breaks(Part::Thrown)),
        Outcome::Unknown => Ok(Judged::Outside),
    }
}

/// Runs the method on a start and judges the run: whether a scope is left, the start does not meet
/// the precondition, the run meets the contract, or which part of it is the first that it breaks.
/// Linear in the steps of the run, beside the evaluation of the clauses: each is evaluated twice at
/// most in each of the two states.
pub fn replay(alloc: Global, problem: &Problem, start: &Start) -> Result<Replayed, NoMemory>
    requires { length start.now.objects ≤ problem.now.scope.objects }
    ensures replayed { IfOk result (λ r. r ≡ replayed problem.now start.now) }
    ensures known { IfOk result IsKnown }
{
    let invariants = all_invariants(alloc, problem, start.objects.as_slice())?;
    let needs = needs_of(alloc, problem, start)?;
    if any_out(invariants.as_slice()) || any_out(needs.as_slice()) {
        return Ok(untold(alloc, Judged::Outside));
    }
    if !is_asked(alloc, problem, start, needs.as_slice())? {
        return Ok(untold(alloc, Judged::NotAsked));
    }
    let end = run(alloc, problem, start)?;
    let judged = judged_run(alloc, problem, start, &end)?;
    Ok(shown(alloc, judged, end))
}
