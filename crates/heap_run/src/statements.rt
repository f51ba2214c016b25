ghost use Rattle.std.specs.Prelude.{◌≡◌, ◌≤◌, IfOk};
ghost use Rattle.heap_run.specs.Machines.{Executed, Blocks, LocalSet, LocalStepped, Stored, HeldStepped, FieldStepped, GivenBack};
ghost use Rattle.heap_run.specs.Runs.{StaysWithin};
ghost use Rattle.heap_run.specs.Tasks.{step as step_lem};

use crate::calling::call;
use crate::code::local_at;
use crate::machine::{Machine, Outcome, Task, Wait};
use crate::steps::{evaluate_for, execute_before};
use heap_core::{Problem, Seen, Value, operated, read, write};
use no_memory::NoMemory;
use std::alloc::Global;
use taco_unit::{Expr, Op, Stmt};

/// The statements of a block are executed, one after the other.
pub fn execute_all<'a>(machine: &mut Machine<'a>, stmts: &'a [Stmt]) -> Result<Task<'a>, NoMemory>
    ensures step { IfOk result (Blocks machine.old stmts.now machine.new) }
    ensures heap { machine.new.heap.items ≡ machine.old.heap.items }
{
    match stmts {
        [] => Ok(Task::Go),
        [first, rest @ ..] => {
            let task = execute_before(machine, Wait::Rest(rest), first)?;
            Ok(task)
        }
    }
}

/// A local is set.
pub fn set_local<'a>(machine: &mut Machine<'a>, local: u8, value: Value) -> Task<'a>
    ensures step { LocalSet machine.old local value machine.new result }
    ensures heap { machine.new.heap.items ≡ machine.old.heap.items }
{
    let local = usize::from(local);
    if local < machine.frame.locals.len() {
        machine.frame.locals.set(local, value);
        Task::Go
    } else {
        Task::End(Outcome::Unknown)
    }
}

/// One more, or one less.
fn stepped(ints: u8, up: bool, value: Value) -> Seen
    requires low { 2 ≤ ints }
    requires high { ints ≤ 16 }
    ensures { result ≡ step_lem ints up value }
{
    if up {
        operated(ints, Op::Add, value, Value::Num(1))
    } else {
        operated(ints, Op::Sub, value, Value::Num(1))
    }
}

/// A local is stepped.
fn step_local<'a>(problem: &Problem, machine: &mut Machine<'a>, local: u8, up: bool) -> Task<'a>
    ensures step { LocalStepped problem.now machine.old local up machine.new result }
    ensures heap { machine.new.heap.items ≡ machine.old.heap.items }
{
    let Some(value) = local_at(machine.frame.locals.as_slice(), local) else {
        return Task::End(Outcome::Unknown);
    };
    match stepped(problem.scope.ints, up, value) {
        Seen::Is(value) => set_local(machine, local, value),
        Seen::Bad => Task::End(Outcome::Thrown),
        Seen::Out => Task::End(Outcome::Unknown),
    }
}

/// A field of an object is set, after the object was tested for null.
pub fn store<'a>(
    problem: &Problem,
    machine: &mut Machine<'a>,
    field: u8,
    target: Value,
    value: Value,
) -> Task<'a>
    ensures step { Stored problem.now machine.old field target value machine.new result }
    ensures within { StaysWithin problem.now machine.old.heap.items machine.new.heap.items }
{
    match target {
        Value::Obj(object) => {
            if write(&problem.unit, &mut machine.heap, field, object, value) {
                Task::Go
            } else {
                Task::End(Outcome::Unknown)
            }
        }
        Value::Null => Task::End(Outcome::Thrown),
        _ => Task::End(Outcome::Unknown),
    }
}

/// A field of this object is stepped.
fn step_held<'a>(
    problem: &Problem,
    machine: &mut Machine<'a>,
    field: u8,
    up: bool,
    object: u8,
) -> Task<'a>
    ensures step { HeldStepped problem.now machine.old field up object machine.new result }
    ensures within { StaysWithin problem.now machine.old.heap.items machine.new.heap.items }
{
    let Some(held) = read(&problem.unit, machine.heap.as_slice(), field, object) else {
        return Task::End(Outcome::Unknown);
    };
    match stepped(problem.scope.ints, up, held) {
        Seen::Is(value) => store(problem, machine, field, Value::Obj(object), value),
        Seen::Bad => Task::End(Outcome::Thrown),
        Seen::Out => Task::End(Outcome::Unknown),
    }
}

/// A field of an object is stepped, after the object was tested for null.
pub fn step_field<'a>(
    problem: &Problem,
    machine: &mut Machine<'a>,
    field: u8,
    up: bool,
    target: Value,
) -> Task<'a>
    ensures step { FieldStepped problem.now machine.old field up target machine.new result }
    ensures within { StaysWithin problem.now machine.old.heap.items machine.new.heap.items }
{
    match target {
        Value::Obj(object) => step_held(problem, machine, field, up, object),
        Value::Null => Task::End(Outcome::Thrown),
        _ => Task::End(Outcome::Unknown),
    }
}

/// How many turns a loop may have.
fn turns_of(problem: &Problem) -> u8
    ensures { result ≡ problem.now.scope.loops }
{
    problem.scope.loops
}

/// The value is returned, where there is one.
fn give_back<'a>(machine: &mut Machine<'a>, value: &'a Option<Expr>) -> Result<Task<'a>, NoMemory>
    ensures step { IfOk result (GivenBack machine.old value.now machine.new) }
    ensures heap { machine.new.heap.items ≡ machine.old.heap.items }
{
    match value {
        None => Ok(Task::Return(None)),
        Some(a) => {
            let task = evaluate_for(machine, Wait::Return, a)?;
            Ok(task)
        }
    }
}

/// One step of a statement.
pub fn execute<'a>(
    alloc: Global,
    problem: &'a Problem,
    machine: &mut Machine<'a>,
    stmt: &'a Stmt,
) -> Result<Task<'a>, NoMemory>
    ensures step { IfOk result (Executed problem.now machine.old stmt.now machine.new) }
    ensures heap { machine.new.heap.items ≡ machine.old.heap.items }
{
    match stmt {
        Stmt::Block(parts) => {
            let task = execute_all(machine, parts.as_slice())?;
            Ok(task)
        }
        Stmt::Set(i, a) => {
            let task = evaluate_for(machine, Wait::Set(*i), a)?;
            Ok(task)
        }
        Stmt::Write(a, f, b) => {
            let task = evaluate_for(machine, Wait::Write(*f, b), a)?;
            Ok(task)
        }
        Stmt::StepLocal(i, up) => Ok(step_local(problem, machine, *i, *up)),
        Stmt::StepField(a, f, up) => {
            let task = evaluate_for(machine, Wait::Step(*f, *up), a)?;
            Ok(task)
        }
        Stmt::If(a, s, t) => {
            let task = evaluate_for(machine, Wait::Branch(s.get(), t.get()), a)?;
            Ok(task)
        }
        Stmt::While(a, s) => {
            let turns = turns_of(problem);
            let task = evaluate_for(machine, Wait::Turn(turns, a, s.get()), a)?;
            Ok(task)
        }
        Stmt::Return(value) => {
            let task = give_back(machine, value)?;
            Ok(task)
        }
        Stmt::Run(c) => {
            let task = call(alloc, problem, machine, c, false)?;
            Ok(task)
        }
    }
}
