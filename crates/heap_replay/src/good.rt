ghost use Rattle.std.specs.Prelude.{◌≡◌, ◌≤◌, ◌&&◌, length, zip, IfOk};
ghost use Rattle.std.specs.List.{list_any};
ghost use Rattle.heap_core.specs.Outcomes.{is_null as is_null_lem, gives_null as gives_null_lem};
ghost use Rattle.heap_core.specs.Judge.{must_be_there as must_be_there_lem, is_missing as is_missing_lem, fields_at as fields_at_lem, missing_at, is_good_at as is_good_at_lem, is_good as is_good_lem, lacks_argument as lacks_argument_lem, lacks_result as lacks_result_lem, is_asked as is_asked_lem, needs_of as needs_of_lem};
ghost use Rattle.heap_replay.specs.Firsts.{first};

use crate::clauses::{all_true, count_of, invariants_at};
use heap_core::{Object, Problem, Seen, Start, Value, method_in};
use no_memory::NoMemory;
use sqlite_items::at;
use std::alloc::Global;
use taco_unit::{Kind, ParamDef};

/// Whether a field, parameter or result of this kind must not be null.
fn must_be_there(kind: Kind, nullable: bool) -> bool
    ensures { result ≡ must_be_there_lem kind nullable }
{
    match kind {
        Kind::Ref(_) => !nullable,
        _ => false,
    }
}

fn is_null(value: Value) -> bool
    ensures { result ≡ is_null_lem value }
{
    match value {
        Value::Null => true,
        _ => false,
    }
}

fn gives_null(seen: Seen) -> bool
    ensures { result ≡ gives_null_lem seen }
{
    match seen {
        Seen::Is(value) => is_null(value),
        _ => false,
    }
}

/// Whether this field of an object is null and must not be. Linear in the fields of the object's class.
fn is_missing(problem: &Problem, heap: &[Object], object: u8, field: u8) -> bool
    ensures { result ≡ is_missing_lem problem.now heap.now object field }
{
    match at(problem.unit.fields.as_slice(), usize::from(field)) {
        Some(d) => {
            must_be_there(d.kind, d.nullable)
                && gives_null(heap_core::field(&problem.unit, heap, field, Value::Obj(object)))
        }
        None => false,
    }
}

/// The fields of the class of an object.
fn fields_at<'a>(problem: &'a Problem, heap: &[Object], object: u8) -> &'a [u8]
    ensures { result.now ≡ fields_at_lem problem.now heap.now object }
{
    match at(heap, usize::from(object)) {
        Some(x) => match at(problem.unit.classes.as_slice(), usize::from(x.class)) {
            Some(class) => class.fields.as_slice(),
            None => &[],
        },
        None => &[],
    }
}

/// The first field of an object that is null and must not be.
pub fn first_missing(problem: &Problem, heap: &[Object], object: u8) -> Option<u8>
    ensures { result ≡ first (missing_at problem.now heap.now object) }
{
    for field in fields_at(problem, heap, object) {
        if is_missing(problem, heap, object, *field) {
            return Some(*field);
        }
    }
    None
}

/// Whether an object has no missing field and its invariants are true.
#[tactic(auto, using(crate::proofs::Judging::first_of_kind))]
fn is_good_at(
    alloc: Global,
    problem: &Problem,
    heap: &[Object],
    object: u8,
) -> Result<bool, NoMemory>
    requires { length heap.now ≤ problem.now.scope.objects }
    ensures { IfOk result (λ good. good ≡ is_good_at_lem problem.now heap.now object) }
{
    let whole = first_missing(problem, heap, object).is_none();
    let invariants = invariants_at(alloc, problem, heap, object)?;
    Ok(whole && all_true(invariants.as_slice()))
}

/// Whether every object is so.
fn is_good(alloc: Global, problem: &Problem, heap: &[Object]) -> Result<bool, NoMemory>
    requires { length heap.now ≤ problem.now.scope.objects }
    ensures { IfOk result (λ good. good ≡ is_good_lem problem.now heap.now) }
{
    for object in 0..count_of(problem, heap) {
        if !is_good_at(alloc, problem, heap, object)? {
            return Ok(false);
        }
    }
    Ok(true)
}

/// Whether this argument is null and must not be.
fn lacks(param: &ParamDef, arg: Value) -> bool
    ensures { result ≡ (must_be_there_lem param.now.kind param.now.nullable && is_null_lem arg) }
{
    must_be_there(param.kind, param.nullable) && is_null(arg)
}

/// Whether one of these arguments is null and must not be.
fn lacks_one(params: &[ParamDef], args: &[Value]) -> bool
    ensures { result ≡ list_any (λ e. must_be_there_lem e.0.kind e.0.nullable && is_null_lem e.1) (zip params.now args.now) }
{
    let count = params.len().min(args.len());
    for i in 0..count {
        if lacks(&params[i], args[i]) {
            return true;
        }
    }
    false
}

/// Whether an argument is null and must not be.
fn lacks_argument(problem: &Problem, start: &Start) -> bool
    ensures { result ≡ lacks_argument_lem problem.now start.now }
{
    lacks_one(method_in(problem).params.as_slice(), start.args.as_slice())
}

/// Whether the result is null and must not be.
pub fn lacks_result(problem: &Problem, returned: Option<Value>) -> bool
    ensures { result ≡ lacks_result_lem problem.now returned }
{
    match (returned, &method_in(problem).result) {
        (Some(value), Some((kind, nullable))) => {
            must_be_there(*kind, *nullable) && is_null(value)
        }
        _ => false,
    }
}

/// Whether the start meets the precondition, of whose `requires` clauses these are the values.
pub fn is_asked(
    alloc: Global,
    problem: &Problem,
    start: &Start,
    needs: &[Seen],
) -> Result<bool, NoMemory>
    requires few { length start.now.objects ≤ problem.now.scope.objects }
    requires values { needs.now ≡ needs_of_lem problem.now start.now }
    ensures { IfOk result (λ asked. asked ≡ is_asked_lem problem.now start.now) }
{
    let good = is_good(alloc, problem, start.objects.as_slice())?;
    Ok(good && all_true(needs) && !lacks_argument(problem, start))
}
