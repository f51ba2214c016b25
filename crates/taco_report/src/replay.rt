ghost use Rattle.std.specs.Prelude.{◌≡◌, ◌++◌, IfOk, OnOk};
ghost use Rattle.heap_replay.specs.Replays.{is_of_run as is_of_run_lem};
ghost use Rattle.taco_report.specs.Replays.{judged_line, replay_text_of, result_line};

use crate::parts::add_part;
use crate::state::add_heap;
use crate::writing::{add, add_value};
use heap_core::{Judged, Problem};
use heap_replay::{Outcome, Replayed};
use no_memory::NoMemory;
use std::alloc::Global;

/// Adds the line of a judgement.
fn add_judged(
    alloc: Global,
    out: &mut Vec<u8>,
    problem: &Problem,
    judged: Judged,
) -> Result<(), NoMemory>
    ensures { OnOk result (out.new.items ≡ out.old.items ++ judged_line problem.now judged) }
{
    add(out, b"judged ")?;
    match judged {
        Judged::Meets => add(out, b"meets")?,
        Judged::Breaks(part) => {
            add(out, b"breaks ")?;
            add_part(alloc, out, problem, part)?;
        }
        Judged::NotAsked => add(out, b"notasked")?,
        Judged::Outside => add(out, b"outside")?,
    }
    add(out, b"\n")
}

/// Whether the judgement is one of the run.
fn is_of_run(judged: Judged) -> bool
    ensures { result ≡ is_of_run_lem judged }
{
    match judged {
        Judged::Meets | Judged::Breaks(_) => true,
        Judged::NotAsked | Judged::Outside => false,
    }
}

/// Adds the line of what a run gives.
fn add_outcome(alloc: Global, out: &mut Vec<u8>, outcome: Outcome) -> Result<(), NoMemory>
    ensures { OnOk result (out.new.items ≡ out.old.items ++ result_line outcome) }
{
    add(out, b"result ")?;
    match outcome {
        Outcome::Value(value) => add_value(alloc, out, value)?,
        Outcome::Nothing => add(out, b"none")?,
        Outcome::Thrown => add(out, b"thrown")?,
        Outcome::Unknown => (),
    }
    add(out, b"\n")
}

/// The report of a replay: a line `judged meets`, `judged breaks PART`, `judged notasked` or `judged
/// outside`, and of a run that meets or breaks the contract a line `result VALUE`, `result none` (the
/// method has no result) or `result thrown`, and the lines of the heap that it left. Its cost is the
/// text's length.
pub fn replay_text(
    alloc: Global,
    problem: &Problem,
    replayed: &Replayed,
) -> Result<Vec<u8>, NoMemory>
    ensures { IfOk result (λ text. text.items ≡ replay_text_of problem.now replayed.now) }
{
    let mut out = Vec::new(alloc);
    add_judged(alloc, &mut out, problem, replayed.judged)?;
    if is_of_run(replayed.judged) {
        add_outcome(alloc, &mut out, replayed.result)?;
        add_heap(alloc, &mut out, problem, replayed.end_heap.as_slice())?;
    }
    Ok(out)
}
