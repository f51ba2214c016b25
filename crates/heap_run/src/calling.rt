ghost use Rattle.std.specs.Prelude.{◌≡◌, ◌<◌, ◌++◌, IfOk, map, slice_get};
ghost use Rattle.std.specs.Option.{option_copied};
ghost use Rattle.heap_core.specs.Outcomes.{zero_of as zero_of_lem};
ghost use Rattle.heap_run.specs.Onward.{otherwise_of as otherwise_of_lem};
ghost use Rattle.heap_run.specs.Machines.{Called, Argued, Entered, Started, Begun};

use crate::machine::{Activation, Machine, Outcome, Task, Wait};
use crate::steps::evaluate_for;
use heap_core::{Problem, Value, zero_of};
use no_memory::NoMemory;
use sqlite_items::{Items, at};
use std::alloc::Global;
use std::mem;
use taco_unit::{Call, Expr, Kind, MethodDef};

/// What a method gives that goes to its end.
pub fn otherwise_of(method: &MethodDef) -> Option<Value>
    ensures { result ≡ otherwise_of_lem method.now }
{
    match &method.result {
        Some((kind, _)) => Some(zero_of(*kind)),
        None => None,
    }
}

/// The locals with which a method begins: its arguments, and behind them those of its own.
pub fn first_locals(args: Items<Value>, kinds: &[Kind]) -> Result<Items<Value>, NoMemory>
    ensures { IfOk result (λ locals. locals ≡ args ++ map zero_of_lem kinds.now) }
{
    let mut locals = args;
    for kind in kinds {
        locals.push(zero_of(*kind))?;
    }
    Ok(locals)
}

/// The body of a method begins, behind which the method waits that runs.
fn begin<'a>(
    machine: &mut Machine<'a>,
    method: &'a MethodDef,
    this: Value,
    args: Items<Value>,
    wanted: bool,
) -> Result<Task<'a>, NoMemory>
    requires { 0 < machine.old.frame.left }
    ensures step { IfOk result (Begun machine.old method.now this args wanted machine.new) }
    ensures heap { machine.new.heap.items ≡ machine.old.heap.items }
{
    let locals = first_locals(args, method.locals.as_slice())?;
    let left = machine.frame.left - 1;
    let callee = Activation { this, locals, left };
    let caller = mem::replace(&mut machine.frame, callee);
    let otherwise = otherwise_of(method);
    machine.waits.push(Wait::Caller {
        caller,
        otherwise,
        wanted,
    })?;
    Ok(Task::Execute(&method.body))
}

/// The method of this number.
fn method_at(problem: &Problem, method: u8) -> Option<&MethodDef>
    ensures { option_copied result ≡ slice_get problem.now.unit.methods method }
{
    at(problem.unit.methods.as_slice(), usize::from(method))
}

/// A method is run on a receiver, where calls may be nested so deep.
fn start<'a>(
    problem: &'a Problem,
    machine: &mut Machine<'a>,
    method: u8,
    this: Value,
    args: Items<Value>,
    wanted: bool,
) -> Result<Task<'a>, NoMemory>
    ensures step { IfOk result (Started problem.now machine.old method this args wanted machine.new) }
    ensures heap { machine.new.heap.items ≡ machine.old.heap.items }
{
    if machine.frame.left == 0 {
        return Ok(Task::End(Outcome::Unknown));
    }
    match method_at(problem, method) {
        Some(d) => {
            let task = begin(machine, d, this, args, wanted)?;
            Ok(task)
        }
        None => Ok(Task::End(Outcome::Unknown)),
    }
}

/// A method is run, after its target was tested for null.
fn enter<'a>(
    problem: &'a Problem,
    machine: &mut Machine<'a>,
    method: u8,
    target: Option<Value>,
    args: Items<Value>,
    wanted: bool,
) -> Result<Task<'a>, NoMemory>
    ensures step { IfOk result (Entered problem.now machine.old method target args wanted machine.new) }
    ensures heap { machine.new.heap.items ≡ machine.old.heap.items }
{
    match target {
        Some(Value::Null) => Ok(Task::End(Outcome::Thrown)),
        Some(Value::Num(_)) | Some(Value::Flag(_)) => Ok(Task::End(Outcome::Unknown)),
        Some(object) => {
            let task = start(problem, machine, method, object, args, wanted)?;
            Ok(task)
        }
        None => {
            let task = start(problem, machine, method, Value::Null, args, wanted)?;
            Ok(task)
        }
    }
}

/// A call goes on, of which the target and these arguments are known, and these not yet.
pub fn call_on<'a>(
    problem: &'a Problem,
    machine: &mut Machine<'a>,
    method: u8,
    target: Option<Value>,
    args: Items<Value>,
    rest: &'a [Expr],
    wanted: bool,
) -> Result<Task<'a>, NoMemory>
    ensures step { IfOk result (Argued problem.now machine.old method target args rest.now wanted machine.new) }
    ensures heap { machine.new.heap.items ≡ machine.old.heap.items }
{
    match rest {
        [] => {
            let task = enter(problem, machine, method, target, args, wanted)?;
            Ok(task)
        }
        [first, rest @ ..] => {
            let wait = Wait::Argument {
                method,
                target,
                args,
                rest,
                wanted,
            };
            let task = evaluate_for(machine, wait, first)?;
            Ok(task)
        }
    }
}

/// A call begins: its target is evaluated, or else its first argument.
pub fn call<'a>(
    alloc: Global,
    problem: &'a Problem,
    machine: &mut Machine<'a>,
    call: &'a Call,
    wanted: bool,
) -> Result<Task<'a>, NoMemory>
    ensures step { IfOk result (Called problem.now machine.old call.now wanted machine.new) }
    ensures heap { machine.new.heap.items ≡ machine.old.heap.items }
{
    let method = call.method;
    let rest = call.args.as_slice();
    match &call.target {
        Some(target) => {
            let wait = Wait::Target {
                method,
                rest,
                wanted,
            };
            let task = evaluate_for(machine, wait, target.get())?;
            Ok(task)
        }
        None => {
            let task = call_on(
                problem,
                machine,
                method,
                None,
                Items::new(alloc),
                rest,
                wanted,
            )?;
            Ok(task)
        }
    }
}
