ghost use Rattle.std.specs.Prelude.{◌≡◌, Some, IfOk, option_and_then};
ghost use Rattle.heap_core.specs.Start.{method_of};
ghost use Rattle.heap_run.specs.Onward.{otherwise_of as otherwise_of_lem};
ghost use Rattle.heap_run.specs.Tasks.{outcome_of as outcome_of_lem};
ghost use Rattle.heap_run.specs.declared.machine.Task.TheVariants as t;
ghost use Rattle.heap_run.specs.Machines.{Steps, Comes};
ghost use Rattle.heap_run.specs.Runs.{Runs, StaysWithin};

use crate::calling::{first_locals, otherwise_of};
use crate::code::evaluate;
use crate::exits::{go_on, unwind};
use crate::machine::{Activation, Machine, Outcome, Task};
use crate::statements::execute;
use crate::values::resume;
use heap_core::{Object, Problem, Start, Value, method_in};
use no_memory::NoMemory;
use sqlite_items::Items;
use std::alloc::Global;
use taco_unit::MethodDef;

/// How a run ends that gives this.
pub fn outcome_of(value: Option<Value>) -> Outcome
    ensures { result ≡ outcome_of_lem value }
{
    match value {
        Some(value) => Outcome::Value(value),
        None => Outcome::Nothing,
    }
}

/// What the method gives where it goes to its end.
fn last_value(problem: &Problem) -> Option<Value>
    ensures { result ≡ option_and_then otherwise_of_lem (method_of problem.now) }
{
    otherwise_of(method_in(problem))
}

/// One step from a value.
fn give<'a>(
    alloc: Global,
    problem: &'a Problem,
    machine: &mut Machine<'a>,
    value: Value,
) -> Result<Task<'a>, NoMemory>
    ensures step { IfOk result (Steps problem.now machine.old (t.Give value) machine.new) }
    ensures within { StaysWithin problem.now machine.old.heap.items machine.new.heap.items }
{
    match machine.waits.pop() {
        Some(wait) => {
            let task = resume(alloc, problem, machine, wait, value)?;
            Ok(task)
        }
        None => Ok(Task::End(Outcome::Unknown)),
    }
}

/// One step from the end of a statement.
fn go<'a>(problem: &'a Problem, machine: &mut Machine<'a>) -> Result<Task<'a>, NoMemory>
    ensures step { IfOk result (Steps problem.now machine.old t.Go machine.new) }
    ensures heap { machine.new.heap.items ≡ machine.old.heap.items }
{
    match machine.waits.pop() {
        Some(wait) => {
            let task = go_on(machine, wait)?;
            Ok(task)
        }
        None => Ok(Task::End(outcome_of(last_value(problem)))),
    }
}

/// One step from a `return`.
fn give_up<'a>(problem: &Problem, machine: &mut Machine<'a>, value: Option<Value>) -> Task<'a>
    ensures step { Steps problem.now machine.old (t.Return value) machine.new result }
    ensures heap { machine.new.heap.items ≡ machine.old.heap.items }
{
    match machine.waits.pop() {
        Some(wait) => unwind(machine, wait, value),
        None => Task::End(outcome_of(value)),
    }
}

/// One step of a run. A run that has ended stays as it is.
fn step<'a>(
    alloc: Global,
    problem: &'a Problem,
    machine: &mut Machine<'a>,
    task: Task<'a>,
) -> Result<Task<'a>, NoMemory>
    ensures step { IfOk result (Steps problem.now machine.old task.entry machine.new) }
    ensures within { StaysWithin problem.now machine.old.heap.items machine.new.heap.items }
{
    match task {
        Task::Evaluate(expr) => {
            let next = evaluate(alloc, problem, machine, expr)?;
            Ok(next)
        }
        Task::Execute(stmt) => {
            let next = execute(alloc, problem, machine, stmt)?;
            Ok(next)
        }
        Task::Give(value) => {
            let next = give(alloc, problem, machine, value)?;
            Ok(next)
        }
        Task::Go => {
            let next = go(problem, machine)?;
            Ok(next)
        }
        Task::Return(value) => Ok(give_up(problem, machine, value)),
        Task::End(outcome) => Ok(Task::End(outcome)),
    }
}

/// Runs a machine to its end. Linear in the steps of the run.
fn run_to_end<'a>(
    alloc: Global,
    problem: &'a Problem,
    machine: &mut Machine<'a>,
    task: Task<'a>,
) -> Result<Outcome, NoMemory>
    ensures step { IfOk result (Comes problem.now machine.old task.entry machine.new) }
    ensures within { StaysWithin problem.now machine.old.heap.items machine.new.heap.items }
{
    let mut task = task;
    loop {
        match task {
            Task::End(outcome) => return Ok(outcome),
            _ => {}
        }
        task = step(alloc, problem, machine, task)?;
    }
}

/// A copy of a heap.
fn copy_heap(alloc: Global, objects: &[Object]) -> Result<Vec<Object>, NoMemory>
    ensures { IfOk result (λ heap. heap.items ≡ objects.now) }
{
    let mut heap = Vec::new(alloc);
    for object in objects {
        let cells = Items::from_slice(alloc, object.cells.as_slice())?;
        heap.push(Object {
            class: object.class,
            cells,
        })?;
    }
    Ok(heap)
}

/// The end of a run, and the heap that it leaves.
#[derive(Drop)]
pub struct RunEnd {
    pub outcome: Outcome,
    pub heap: Items<Object>,
}

/// How deep calls may be nested.
fn calls_of(problem: &Problem) -> u8
    ensures { result ≡ problem.now.scope.calls }
{
    problem.scope.calls
}

/// Runs a method on a start.
fn run_method(
    alloc: Global,
    problem: &Problem,
    method: &MethodDef,
    start: &Start,
) -> Result<RunEnd, NoMemory>
    requires { method_of problem.now ≡ Some method.now }
    ensures run { IfOk result (Runs problem.now start.now) }
    ensures within { IfOk result (λ r. StaysWithin problem.now start.now.objects r.heap) }
{
    let args = Items::from_slice(alloc, start.args.as_slice())?;
    let locals = first_locals(args, method.locals.as_slice())?;
    let left = calls_of(problem);
    let frame = Activation {
        this: start.this,
        locals,
        left,
    };
    let heap = copy_heap(alloc, start.objects.as_slice())?;
    let waits = Items::new(alloc);
    let mut machine = Machine { waits, frame, heap };
    let outcome = run_to_end(alloc, problem, &mut machine, Task::Execute(&method.body))?;
    let Machine {
        waits: _,
        frame: _,
        heap,
    } = machine;
    let heap = Items::from_vec(heap);
    Ok(RunEnd { outcome, heap })
}

/// Runs the method of a problem on a start. How the run ends, with the heap that it leaves, which
/// nobody speaks of where the run leaves the scope. Linear in the steps of the run.
pub fn run(alloc: Global, problem: &Problem, start: &Start) -> Result<RunEnd, NoMemory>
    ensures run { IfOk result (Runs problem.now start.now) }
    ensures within { IfOk result (λ r. StaysWithin problem.now start.now.objects r.heap) }
{
    let run = run_method(alloc, problem, method_in(problem), start)?;
    Ok(run)
}
