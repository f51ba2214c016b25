ghost use Rattle.std.specs.Prelude.{◌≡◌, ◌≤◌, ◌<◌, ◌-◌, ◌++◌, length, slice_get, take, IsTrue, IfOk, IfErr, Some};
ghost use Rattle.std.specs.Cmp.Lexicographic.{pointwise};
ghost use Rattle.std.specs.List.{list_all};
ghost use Rattle.heap_core.specs.declared.start.Start.{Start};
ghost use Rattle.heap_core.specs.declared.value.Object.{Object};
ghost use Rattle.heap_core.specs.Start.{Fits};
ghost use Rattle.taco_report.specs.Texts.{argument_line as argument_line_of, object_line as object_line_of, params_of, state_text};
ghost use Rattle.taco_report.specs.declared.fault.StateFault.TheVariants as f;
ghost use Rattle.taco_unit.specs.declared.unit.ParamDef.{ParamDef};
ghost use Rattle.taco_report.specs.States.{BlamesState, IsReadAs, IsStateText, NoLine, argument_lines as argument_lines_of, is_given, is_listed, object_lines as object_lines_of};

use crate::fault::StateFault;
use crate::line_reader::{argument_line, count_line, object_line, receiver_line};
use crate::state::params_in;
use heap_core::{Object, Problem, Start, Value, well_posed};
use no_memory::NoMemory;
use sqlite_items::Items;
use std::alloc::Global;

/// The lines of objects: of `count`, or up to the first that is not right.
fn object_lines<'a>(
    alloc: Global,
    problem: &Problem,
    count: u8,
    text: &'a [u8],
) -> Result<(Items<Object>, &'a [u8]), NoMemory>
    ensures listed { IfOk result (λ x. IsTrue (list_all (is_listed problem.now.unit count) x.0)) }
    ensures parts { IfOk result (λ x. text.now ≡ object_lines_of problem.now x.0 ++ x.1.now) }
    ensures few { IfOk result (λ x. length x.0 ≤ count) }
    ensures none { IfOk result (λ x. length x.0 < count → NoLine (is_listed problem.now.unit count) (λ o. object_line_of problem.now (length x.0, o)) x.1.now) }
{
    let mut objects = Items::new(alloc);
    let mut rest = text;
    while objects.len() < usize::from(count) {
        let Some((object, behind)) = object_line(alloc, problem, count, objects.len(), rest)? else {
            return Ok((objects, rest));
        };
        objects.push(object)?;
        rest = behind;
    }
    Ok((objects, rest))
}

/// The lines of arguments: of all parameters, or up to the first that is not right.
fn argument_lines<'a>(
    alloc: Global,
    problem: &Problem,
    count: u8,
    text: &'a [u8],
) -> Result<(Items<Value>, &'a [u8]), NoMemory>
    ensures given { IfOk result (λ x. IsTrue (pointwise (is_given count) (take (length x.0) (params_of problem.now)) x.0)) }
    ensures parts { IfOk result (λ x. text.now ≡ argument_lines_of problem.now x.0 ++ x.1.now) }
    ensures few { IfOk result (λ x. length x.0 ≤ length (params_of problem.now)) }
    ensures none { IfOk result (λ x. (q : ParamDef) → slice_get (params_of problem.now) (length x.0) ≡ Some q → NoLine (is_given count q) (λ v. argument_line_of (q, v)) x.1.now) }
{
    let params = params_in(problem);
    let mut args = Items::new(alloc);
    let mut rest = text;
    while args.len() < params.len() {
        let Some((value, behind)) = argument_line(alloc, count, &params[args.len()], rest)? else {
            return Ok((args, rest));
        };
        args.push(value)?;
        rest = behind;
    }
    Ok((args, rest))
}

/// The refusal of a text at the place where its last bytes begin.
fn bad_state(text: &[u8], rest: &[u8]) -> StateFault
    requires fits { length text.now ≤ 67108864 }
    requires behind { length rest.now ≤ length text.now }
    ensures { result ≡ f.BadState (length text.now - length rest.now) }
{
    StateFault::BadState {
        at: (text.len() - rest.len()) as u32,
    }
}

/// Reads the text of a start, exactly as `state_text` writes it. `BadState` has the place, in bytes
/// from 0, of the first line that is not right where it stands (a last piece without a line feed is
/// such a line, and so is a line too many), or the text's length where a line is missing, or where
/// all lines are right and the start does not fit the problem. The text of a start that fits is never
/// refused. Its cost is the text's length.
pub fn read_state(alloc: Global, problem: &Problem, text: &[u8]) -> Result<Start, StateFault>
    requires { length text.now ≤ 67108864 }
    ensures read { IfOk result (λ start. Fits start problem.now × IsStateText problem.now text.now start) }
    ensures fault { IfErr result (BlamesState problem.now text.now) }
    ensures whole { (s : Start) → Fits s problem.now → text.now ≡ state_text problem.now s → IsReadAs result s }
{
    well_posed(problem);
    let Some((count, lines)) = count_line(alloc, text)? else {
        return Err(StateFault::BadState { at: 0 });
    };
    let (objects, rest) = object_lines(alloc, problem, count, lines)?;
    if objects.len() < usize::from(count) {
        return Err(bad_state(text, rest));
    }
    let Some((this, lines)) = receiver_line(alloc, problem, count, rest)? else {
        return Err(bad_state(text, rest));
    };
    let (args, rest) = argument_lines(alloc, problem, count, lines)?;
    if args.len() < params_in(problem).len() {
        return Err(bad_state(text, rest));
    }
    if !rest.is_empty() {
        return Err(bad_state(text, rest));
    }
    let start = Start {
        objects,
        this,
        args,
    };
    if start.fits(problem) {
        Ok(start)
    } else {
        Err(bad_state(text, rest))
    }
}
