ghost use Rattle.std.specs.Prelude.{◌≡◌, ◌↔◌, Some, IsTrue, flat_map};
ghost use Rattle.heap_core.specs.Start.{Fits};
ghost use Rattle.canonical_order.specs.Canonical.{IsCanonical};
ghost use Rattle.canonical_order.specs.Meeting.{met, met_all};

use heap_core::{Object, Problem, Start, Value};

/// Comes upon a value, where of `count` objects those below `next` were come upon: how many were then,
/// or `None` where an object stands out of order.
fn meet(count: usize, next: Option<usize>, value: Value) -> Option<usize>
    ensures { result ≡ met count next value }
{
    match (next, value) {
        (Some(next), Value::Obj(object)) => {
            let object = usize::from(object);
            if object < next || object >= count {
                Some(next)
            } else if object == next {
                Some(next + 1)
            } else {
                None
            }
        }
        _ => next,
    }
}

/// Comes upon each of these values.
fn meet_all(count: usize, next: Option<usize>, values: &[Value]) -> Option<usize>
    ensures { result ≡ met_all count next values.now }
{
    let mut next = next;
    for value in values {
        next = meet(count, next, *value);
    }
    next
}

/// Comes upon each field of these objects.
fn meet_fields(count: usize, next: Option<usize>, objects: &[Object]) -> Option<usize>
    ensures { result ≡ met_all count next (flat_map (λ x. x.cells) objects.now) }
{
    let mut next = next;
    for object in objects {
        next = meet_all(count, next, object.cells.as_slice());
    }
    next
}

/// Whether all objects were come upon in order.
fn are_all(count: usize, next: Option<usize>) -> bool
    ensures { IsTrue result ↔ (next ≡ Some count) }
{
    match next {
        Some(next) => next == count,
        None => false,
    }
}

/// Whether the start is canonical: its visit is 0, 1, 2 and so on. It goes once along the places of
/// the start, where the first place of each object has to come in number order. Takes no memory.
pub fn is_canonical(start: &Start, _problem: &Problem) -> bool
    requires { Fits start.now _problem.now }
    ensures { IsTrue result ↔ IsCanonical start.now }
{
    let count = start.objects.len();
    let next = meet(count, Some(0), start.this);
    let next = meet_all(count, next, start.args.as_slice());
    are_all(count, meet_fields(count, next, start.objects.as_slice()))
}
