//! A visit of objects: from its roots along edges, each object once. The one that follows cells is
//! here; a crate above may follow others by `find` and `next`.

ghost use Rattle.std.specs.Prelude.{◌≡◌, true, false, ◌≤◌, ◌<◌, ℕ, length, ◌↔◌, IsTrue, IfNone, IfSome};
ghost use Rattle.std.specs.List.{list_all};
ghost use Rattle.heap_core.specs.Stages.{found, found_all, is_unseen, is_waiting, is_done, stage_of, is_reached};
ghost use Rattle.heap_core.specs.Start.{Reached};

use crate::start::Start;
use crate::value::{Object, Value};

/// How far a visit has come with an object: it was not come upon, it was but its fields were not yet
/// gone through, or they were.
#[derive(Clone, Copy, Debug, PartialEq, Eq)]
pub enum Stage {
    Unseen,
    Waiting,
    Done,
}

/// Comes upon a value: an object that was not come upon waits now. Takes constant time and no memory.
pub fn find(stages: &mut [Stage], value: Value)
    ensures { stages.new ≡ found stages.old value }
{
    if let Value::Obj(object) = value {
        let place = usize::from(object);
        if place < stages.len() && stages[place] == Stage::Unseen {
            stages[place] = Stage::Waiting;
        }
    }
}

/// Comes upon each of these values.
fn find_all(stages: &mut [Stage], values: &[Value])
    ensures { stages.new ≡ found_all stages.old values.now }
{
    for value in values {
        find(stages, *value);
    }
}

/// The number of an object that waits, if there is one. Linear in the stages. Takes no memory.
pub fn next(stages: &[Stage]) -> Option<usize>
    ensures none { IfNone result ((o : ℕ) → is_waiting (stage_of stages.now o) ≡ false) }
    ensures some { IfSome result (λ o. (o < length stages.now) × (is_waiting (stage_of stages.now o) ≡ true)) }
{
    stages.iter().position(|stage| *stage == Stage::Waiting)
}

/// Visits the objects of a start, each once: from the receiver and the arguments along the cells.
/// Afterwards those that are reached are done, and no other is.
fn visit(start: &Start, stages: &mut [Stage])
    requires sized { length stages.old ≡ length start.now.objects }
    requires fresh { (o : ℕ) → o < length stages.old → is_unseen (stage_of stages.old o) ≡ true }
    ensures sized { length stages.new ≡ length start.now.objects }
    ensures done { (o : ℕ) → o < length start.now.objects → is_done (stage_of stages.new o) ≡ is_reached start.now o }
{
    find(stages, start.this);
    find_all(stages, start.args.as_slice());
    while let Some(place) = next(stages) {
        stages[place] = Stage::Done;
        find_all(stages, start.objects.as_slice()[place].cells.as_slice());
    }
}

fn are_done(stages: &[Stage]) -> bool
    ensures { result ≡ list_all is_done stages.now }
{
    stages.iter().all(|stage| *stage == Stage::Done)
}

/// Whether every object of the start is reached from its receiver or an argument.
pub(crate) fn reaches_all(start: &Start) -> bool
    requires { length start.now.objects ≤ 12 }
    ensures { IsTrue result ↔ ((o : ℕ) → o < length start.now.objects → Reached start.now o) }
{
    let mut all = [Stage::Unseen; 12];
    let stages = &mut all[..start.objects.len()];
    visit(start, stages);
    are_done(stages)
}
