ghost use Rattle.std.specs.Prelude.{◌≡◌, IfOk};
ghost use Rattle.heap_run.specs.Machines.{Went, WentAgain, WentBack, Unwound};

use crate::machine::{Activation, Machine, Outcome, Task, Wait};
use crate::statements::execute_all;
use crate::steps::evaluate_for;
use crate::tasks::given_back;
use heap_core::Value;
use no_memory::NoMemory;
use taco_unit::{Expr, Stmt};

/// The test of a loop is evaluated anew, of which this many turns are left.
fn again<'a>(
    machine: &mut Machine<'a>,
    turns: u8,
    test: &'a Expr,
    body: &'a Stmt,
) -> Result<Task<'a>, NoMemory>
    ensures step { IfOk result (WentAgain machine.old turns test.entry body.entry machine.new) }
    ensures heap { machine.new.heap.items ≡ machine.old.heap.items }
{
    let task = evaluate_for(machine, Wait::Turn(turns, test, body), test)?;
    Ok(task)
}

/// The method goes on that made a call, and wants its value or not.
fn go_back<'a>(
    machine: &mut Machine<'a>,
    caller: Activation,
    wanted: bool,
    value: Option<Value>,
) -> Task<'a>
    ensures step { WentBack machine.old caller wanted value machine.new result }
    ensures heap { machine.new.heap.items ≡ machine.old.heap.items }
{
    machine.frame = caller;
    given_back(wanted, value)
}

/// One step from the end of a statement, for which this waits.
pub fn go_on<'a>(machine: &mut Machine<'a>, wait: Wait<'a>) -> Result<Task<'a>, NoMemory>
    ensures step { IfOk result (Went machine.old wait.entry machine.new) }
    ensures heap { machine.new.heap.items ≡ machine.old.heap.items }
{
    match wait {
        Wait::Rest(rest) => {
            let task = execute_all(machine, rest)?;
            Ok(task)
        }
        Wait::Again(turns, test, body) => {
            let task = again(machine, turns, test, body)?;
            Ok(task)
        }
        Wait::Caller {
            caller,
            otherwise,
            wanted,
        } => { Ok(go_back(machine, caller, wanted, otherwise)) }
        _ => Ok(Task::End(Outcome::Unknown)),
    }
}

/// One step from a `return`, for which this waits or which it lets pass.
pub fn unwind<'a>(machine: &mut Machine<'a>, wait: Wait<'a>, value: Option<Value>) -> Task<'a>
    ensures step { Unwound machine.old wait.entry value machine.new result }
    ensures heap { machine.new.heap.items ≡ machine.old.heap.items }
{
    match wait {
        Wait::Caller {
            caller,
            otherwise: _,
            wanted,
        } => {
            machine.frame = caller;
            given_back(wanted, value)
        }
        _ => Task::Return(value),
    }
}
