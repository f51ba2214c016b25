ghost use Rattle.std.specs.Prelude.{◌≡◌, IfOk};
ghost use Rattle.heap_run.specs.Machines.{Evaluates, Executes};

use crate::machine::{Machine, Task, Wait};
use no_memory::NoMemory;
use taco_unit::{Expr, Stmt};

/// Goes on to an expression, for whose value something waits.
pub fn evaluate_for<'a>(
    machine: &mut Machine<'a>,
    wait: Wait<'a>,
    expr: &'a Expr,
) -> Result<Task<'a>, NoMemory>
    ensures step { IfOk result (Evaluates machine.old expr.now wait.entry machine.new) }
    ensures heap { machine.new.heap.items ≡ machine.old.heap.items }
{
    machine.waits.push(wait)?;
    Ok(Task::Evaluate(expr))
}

/// Goes on to a statement, for whose end something waits.
pub fn execute_before<'a>(
    machine: &mut Machine<'a>,
    wait: Wait<'a>,
    stmt: &'a Stmt,
) -> Result<Task<'a>, NoMemory>
    ensures step { IfOk result (Executes machine.old stmt.now wait.entry machine.new) }
    ensures heap { machine.new.heap.items ≡ machine.old.heap.items }
{
    machine.waits.push(wait)?;
    Ok(Task::Execute(stmt))
}
