ghost use Rattle.std.specs.Prelude.{◌≡◌};
ghost use Rattle.heap_run.specs.Tasks.{given as given_lem, given_in as given_in_lem, given_back as given_back_lem};

use crate::machine::{Outcome, Task};
use heap_core::{Seen, Value};

/// What follows an evaluation that gives this in a clause: where null was read through, the run
/// throws.
pub fn given<'a>(seen: Seen) -> Task<'a>
    ensures { result ≡ given_lem seen }
{
    match seen {
        Seen::Is(value) => Task::Give(value),
        Seen::Bad => Task::End(Outcome::Thrown),
        Seen::Out => Task::End(Outcome::Unknown),
    }
}

/// What follows a value that may be missing. Without it the run leaves the scope.
pub fn given_in<'a>(value: Option<Value>) -> Task<'a>
    ensures { result ≡ given_in_lem value }
{
    match value {
        Some(value) => Task::Give(value),
        None => Task::End(Outcome::Unknown),
    }
}

/// What follows a call in the method that made it, and wants its value or not.
pub fn given_back<'a>(wanted: bool, value: Option<Value>) -> Task<'a>
    ensures { result ≡ given_back_lem wanted value }
{
    if wanted { given_in(value) } else { Task::Go }
}
