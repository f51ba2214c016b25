ghost use Rattle.std.specs.Prelude.{◌≡◌, IfOk, slice_get};
ghost use Rattle.heap_core.specs.Outcomes.{number as number_lem};
ghost use Rattle.heap_run.specs.Machines.{Evaluated, Made};
ghost use Rattle.heap_run.specs.Runs.{StaysWithin};

use crate::calling::call;
use crate::machine::{Machine, Outcome, Task, Wait};
use crate::steps::evaluate_for;
use crate::tasks::{given, given_in};
use heap_core::{Problem, Seen, Value, grow};
use no_memory::NoMemory;
use std::alloc::Global;
use taco_unit::Expr;

/// `new`: the heap has a new object of the class.
fn make<'a>(
    alloc: Global,
    problem: &Problem,
    machine: &mut Machine<'a>,
    class: u8,
) -> Result<Task<'a>, NoMemory>
    ensures step { IfOk result (Made problem.now machine.old class machine.new) }
    ensures within { StaysWithin problem.now machine.old.heap.items machine.new.heap.items }
{
    match grow(alloc, problem, &mut machine.heap, class)? {
        Some(object) => Ok(Task::Give(Value::Obj(object))),
        None => Ok(Task::End(Outcome::Unknown)),
    }
}

/// The local of this number.
pub fn local_at(locals: &[Value], local: u8) -> Option<Value>
    ensures { result ≡ slice_get locals.now local }
{
    locals.get(usize::from(local)).copied()
}

/// A number as it stands in code.
fn literal(problem: &Problem, number: i32) -> Seen
    ensures { result ≡ number_lem problem.now.scope.ints number }
{
    heap_core::number(problem.scope.ints, i64::from(number))
}

/// One step of the evaluation of an expression of code.
pub fn evaluate<'a>(
    alloc: Global,
    problem: &'a Problem,
    machine: &mut Machine<'a>,
    expr: &'a Expr,
) -> Result<Task<'a>, NoMemory>
    ensures step { IfOk result (Evaluated problem.now machine.old expr.now machine.new) }
    ensures within { StaysWithin problem.now machine.old.heap.items machine.new.heap.items }
{
    match expr {
        Expr::Num(z) => Ok(given(literal(problem, *z))),
        Expr::Flag(b) => Ok(Task::Give(Value::Flag(*b))),
        Expr::Null => Ok(Task::Give(Value::Null)),
        Expr::This => Ok(Task::Give(machine.frame.this)),
        Expr::Local(i) => Ok(given_in(local_at(machine.frame.locals.as_slice(), *i))),
        Expr::Read(a, f) => {
            let task = evaluate_for(machine, Wait::Read(*f), a.get())?;
            Ok(task)
        }
        Expr::Neg(a) => {
            let task = evaluate_for(machine, Wait::Neg, a.get())?;
            Ok(task)
        }
        Expr::Not(a) => {
            let task = evaluate_for(machine, Wait::Not, a.get())?;
            Ok(task)
        }
        Expr::Bin(op, a, b) => {
            let task = evaluate_for(machine, Wait::Right(*op, b.get()), a.get())?;
            Ok(task)
        }
        Expr::New(class) => {
            let task = make(alloc, problem, machine, *class)?;
            Ok(task)
        }
        Expr::Call(c) => {
            let task = call(alloc, problem, machine, c, true)?;
            Ok(task)
        }
        Expr::Result
        | Expr::Bound(_)
        | Expr::Quant(_)
        | Expr::Old(_)
        | Expr::Has(_, _)
        | Expr::Size(_) => Ok(Task::End(Outcome::Unknown)),
    }
}
