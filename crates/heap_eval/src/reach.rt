ghost use Rattle.std.specs.Prelude.{◌≡◌, ◌==◌, ◌<◌, ◌≤◌, ℕ, true, false, length, count_by, pos};
ghost use Rattle.std.specs.List.{range_with_len};
ghost use Rattle.heap_core.specs.Heap.{field as field_lem};
ghost use Rattle.heap_core.specs.Outcomes.{number as number_lem};
ghost use Rattle.heap_core.specs.Eval.{reached, has as has_lem, size as size_lem};
ghost use Rattle.heap_core.specs.Stages.{is_unseen, is_done as is_done_lem, stage_of};
ghost use Rattle.heap_eval.specs.Environs.{env_of, IsWithin};
ghost use Rattle.heap_eval.specs.Stages.{found_in, found_along};

use crate::environment::Environment;
use heap_core::visit::{Stage, find, next};
use heap_core::{Object, Seen, Value, field, flag, number};
use taco_unit::Unit;

/// The numbers that an object of a value may have.
const NUMBERS: usize = 256;

/// The stages before a visit.
fn unseen() -> [Stage; NUMBERS]
    ensures { (o : ℕ) → o < 256 → is_unseen (stage_of result o) ≡ true }
{
    [Stage::Unseen; NUMBERS]
}

fn is_done(stages: &[Stage], object: u8) -> bool
    requires { object < length stages.now }
    ensures { result ≡ is_done_lem (stage_of stages.now object) }
{
    stages[usize::from(object)] == Stage::Done
}

/// Comes upon what an evaluation gives.
fn find_in(stages: &mut [Stage], seen: Seen)
    ensures { stages.new ≡ found_in stages.old seen }
{
    if let Seen::Is(value) = seen {
        find(stages, value);
    }
}

/// Comes upon what these fields of an object hold.
fn find_along(unit: &Unit, heap: &[Object], fields: &[u8], object: u8, stages: &mut [Stage])
    ensures { stages.new ≡ found_along unit.now.classes heap.now object stages.old fields.now }
{
    for number in fields {
        find_in(stages, field(unit, heap, *number, Value::Obj(object)));
    }
}

/// Visits the objects that can be reached from a value along these fields, each once. Afterwards they
/// are done, and no other number is.
fn visit(env: Environment<'_>, fields: &[u8], from: Value, stages: &mut [Stage])
    requires within { IsWithin (env_of env) }
    requires sized { length stages.old ≡ 256 }
    requires fresh { (o : ℕ) → o < 256 → is_unseen (stage_of stages.old o) ≡ true }
    ensures { (o : ℕ) → o < 256 → is_done_lem (stage_of stages.new o) ≡ reached (env_of env.entry) fields.now from o }
{
    let problem = env.problem;
    find(stages, from);
    while let Some(place) = next(stages) {
        stages[place] = Stage::Done;
        find_along(&problem.unit, env.heap, fields, place as u8, stages);
    }
}

/// Whether the value is an object that can be reached along these fields from an object or null. `Out`
/// where one of the two is no object and not null. It visits each object once and takes no memory.
pub(crate) fn has(env: Environment<'_>, fields: &[u8], from: Value, value: Value) -> Seen
    requires { IsWithin (env_of env) }
    ensures { result ≡ has_lem (env_of env.entry) fields.now from value }
{
    match (from, value) {
        (Value::Num(_), _) | (Value::Flag(_), _) => Seen::Out,
        (_, Value::Null) => flag(false),
        (_, Value::Obj(object)) => {
            let mut stages = unseen();
            visit(env, fields, from, &mut stages);
            flag(is_done(&stages, object))
        }
        _ => Seen::Out,
    }
}

/// The number of so many, where it lies in these bits.
fn number_of(ints: u8, count: u8) -> Seen
    requires low { 2 ≤ ints }
    requires high { ints ≤ 16 }
    ensures { result ≡ number_lem ints (pos count) }
{
    number(ints, i64::from(count))
}

/// How many objects can be reached along these fields from an object or null, in the bits of a number.
/// `Out` where they are too many for these, and from another value. It visits each object once and
/// takes no memory.
pub(crate) fn size(env: Environment<'_>, fields: &[u8], from: Value) -> Seen
    requires { IsWithin (env_of env) }
    ensures { result ≡ size_lem (env_of env.entry) fields.now from }
{
    let problem = env.problem;
    match from {
        Value::Num(_) | Value::Flag(_) => Seen::Out,
        Value::Null | Value::Obj(_) => {
            let mut stages = unseen();
            visit(env, fields, from, &mut stages);
            let count = done_below(&stages, problem.scope.objects);
            number_of(problem.scope.ints, count)
        }
    }
}

/// How many of the numbers below this one are done.
fn done_below(stages: &[Stage], end: u8) -> u8
    requires { end ≤ length stages.now }
    ensures counted { result ≡ count_by (λ o. is_done_lem (stage_of stages.now o)) (range_with_len 0 end) }
    ensures few { result ≤ end }
{
    let mut count = 0;
    for object in 0..end {
        if is_done(stages, object) {
            count += 1;
        }
    }
    count
}
