ghost use Rattle.std.specs.Prelude.{◌≡◌, IfOk};
ghost use Rattle.heap_run.specs.Tasks.{as_truth, branched};
ghost use Rattle.heap_run.specs.Machines.{Resumed, OnRead, OnRight, OnTurn};
ghost use Rattle.heap_run.specs.Runs.{StaysWithin};

use crate::calling::call_on;
use crate::machine::{Machine, Outcome, Task, Wait};
use crate::statements::{set_local, step_field, store};
use crate::steps::{evaluate_for, execute_before};
use crate::tasks::{given, given_in};
use heap_core::{Problem, Value, negative, operated, opposite, read};
use no_memory::NoMemory;
use sqlite_items::Items;
use std::alloc::Global;
use taco_unit::{Expr, Op, Stmt};

/// A field of a value is read.
fn read_of<'a>(problem: &Problem, machine: &Machine<'a>, field: u8, value: Value) -> Task<'a>
    ensures { OnRead problem.now machine.now field value result }
{
    match value {
        Value::Obj(object) => {
            given_in(read(&problem.unit, machine.heap.as_slice(), field, object))
        }
        Value::Null => Task::End(Outcome::Thrown),
        _ => Task::End(Outcome::Unknown),
    }
}

/// The first operand is known: the second is evaluated, where it decides.
fn right_of<'a>(
    machine: &mut Machine<'a>,
    op: Op,
    second: &'a Expr,
    value: Value,
) -> Result<Task<'a>, NoMemory>
    ensures step { IfOk result (OnRight machine.old op second.entry value machine.new) }
    ensures heap { machine.new.heap.items ≡ machine.old.heap.items }
{
    match (op, value) {
        (Op::And, Value::Flag(false)) | (Op::Or, Value::Flag(true)) => Ok(Task::Give(value)),
        (Op::And | Op::Or, Value::Flag(_)) => {
            let task = evaluate_for(machine, Wait::Truth, second)?;
            Ok(task)
        }
        (Op::And | Op::Or, _) => Ok(Task::End(Outcome::Unknown)),
        _ => {
            let task = evaluate_for(machine, Wait::Apply(op, value), second)?;
            Ok(task)
        }
    }
}

/// The truth value that `&&` or `||` gives.
fn truth_of<'a>(value: Value) -> Task<'a>
    ensures { result ≡ as_truth value }
{
    match value {
        Value::Flag(_) => Task::Give(value),
        _ => Task::End(Outcome::Unknown),
    }
}

/// The value says which of two statements is executed.
fn branch<'a>(first: &'a Stmt, second: &'a Stmt, value: Value) -> Task<'a>
    ensures { result ≡ branched first.entry second.entry value }
{
    match value {
        Value::Flag(true) => Task::Execute(first),
        Value::Flag(false) => Task::Execute(second),
        _ => Task::End(Outcome::Unknown),
    }
}

/// The value says whether a loop goes on, of which this many turns are left.
fn turn<'a>(
    machine: &mut Machine<'a>,
    turns: u8,
    test: &'a Expr,
    body: &'a Stmt,
    value: Value,
) -> Result<Task<'a>, NoMemory>
    ensures step { IfOk result (OnTurn machine.old turns test.entry body.entry value machine.new) }
    ensures heap { machine.new.heap.items ≡ machine.old.heap.items }
{
    match value {
        Value::Flag(false) => Ok(Task::Go),
        Value::Flag(true) => {
            if turns == 0 {
                return Ok(Task::End(Outcome::Unknown));
            }
            let task = execute_before(machine, Wait::Again(turns - 1, test, body), body)?;
            Ok(task)
        }
        _ => Ok(Task::End(Outcome::Unknown)),
    }
}

/// One step from a value, for which this waits.
pub fn resume<'a>(
    alloc: Global,
    problem: &'a Problem,
    machine: &mut Machine<'a>,
    wait: Wait<'a>,
    value: Value,
) -> Result<Task<'a>, NoMemory>
    ensures step { IfOk result (Resumed problem.now machine.old wait.entry value machine.new) }
    ensures within { StaysWithin problem.now machine.old.heap.items machine.new.heap.items }
{
    let ints = problem.scope.ints;
    match wait {
        Wait::Read(f) => Ok(read_of(problem, machine, f, value)),
        Wait::Neg => Ok(given(negative(ints, value))),
        Wait::Not => Ok(given(opposite(value))),
        Wait::Right(op, second) => {
            let task = right_of(machine, op, second, value)?;
            Ok(task)
        }
        Wait::Apply(op, first) => Ok(given(operated(ints, op, first, value))),
        Wait::Truth => Ok(truth_of(value)),
        Wait::Target {
            method,
            rest,
            wanted,
        } => {
            let args = Items::new(alloc);
            let task = call_on(problem, machine, method, Some(value), args, rest, wanted)?;
            Ok(task)
        }
        Wait::Argument {
            method,
            target,
            mut args,
            rest,
            wanted,
        } => {
            args.push(value)?;
            let task = call_on(problem, machine, method, target, args, rest, wanted)?;
            Ok(task)
        }
        Wait::Set(i) => Ok(set_local(machine, i, value)),
        Wait::Write(f, b) => {
            let task = evaluate_for(machine, Wait::Store(f, value), b)?;
            Ok(task)
        }
        Wait::Store(f, target) => Ok(store(problem, machine, f, target, value)),
        Wait::Step(f, up) => Ok(step_field(problem, machine, f, up, value)),
        Wait::Branch(first, second) => Ok(branch(first, second, value)),
        Wait::Turn(turns, test, body) => {
            let task = turn(machine, turns, test, body, value)?;
            Ok(task)
        }
        Wait::Return => Ok(Task::Return(Some(value))),
        Wait::Rest(_) | Wait::Again(_, _, _) => Ok(Task::End(Outcome::Unknown)),
        Wait::Caller { .. } => Ok(Task::End(Outcome::Unknown)),
    }
}
