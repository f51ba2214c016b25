ghost use Rattle.std.specs.Prelude.{◌≡◌, ◌≤◌, length, IfOk};
ghost use Rattle.std.specs.List.{list_any, list_all};
ghost use Rattle.heap_core.specs.Outcomes.{is_out as is_out_lem, is_true as is_true_lem};
ghost use Rattle.heap_core.specs.Judge.{values_of as values_of_lem, invariants_of as invariants_of_lem, invariants_at as invariants_at_lem, all_invariants as all_invariants_lem, needs_of as needs_of_lem, gives_of as gives_of_lem, invariant_env};
ghost use Rattle.heap_eval.specs.Environs.{env_of, IsWithin};

use heap_core::{Object, Problem, Seen, Start, Value, method_in};
use heap_eval::{Environment, evaluate};
use no_memory::NoMemory;
use sqlite_items::{Items, at};
use std::alloc::Global;
use taco_unit::Clause;

/// The values of clauses, in order.
fn values_of(
    alloc: Global,
    env: Environment<'_>,
    clauses: &[Clause],
) -> Result<Items<Seen>, NoMemory>
    requires { IsWithin (env_of env) }
    ensures { IfOk result (λ values. values ≡ values_of_lem (env_of env.entry) clauses.now) }
{
    let mut values = Items::new(alloc);
    for clause in clauses {
        values.push(evaluate(alloc, env, &clause.expr)?)?;
    }
    Ok(values)
}

/// What an invariant of this object is evaluated in.
fn invariant_environment<'a>(
    problem: &'a Problem,
    heap: &'a [Object],
    object: u8,
) -> Environment<'a>
    ensures { env_of result ≡ invariant_env problem.now heap.now object }
{
    Environment {
        problem,
        this: Value::Obj(object),
        locals: &[],
        bound: &[],
        result: None,
        heap,
        before: heap,
    }
}

/// The invariants of the class of an object.
fn invariants_of<'a>(problem: &'a Problem, heap: &[Object], object: u8) -> &'a [Clause]
    ensures { result.now ≡ invariants_of_lem problem.now heap.now object }
{
    match at(heap, usize::from(object)) {
        Some(x) => match at(problem.unit.classes.as_slice(), usize::from(x.class)) {
            Some(class) => class.invariants.as_slice(),
            None => &[],
        },
        None => &[],
    }
}

/// The values of the invariants of an object.
pub fn invariants_at(
    alloc: Global,
    problem: &Problem,
    heap: &[Object],
    object: u8,
) -> Result<Items<Seen>, NoMemory>
    requires { length heap.now ≤ problem.now.scope.objects }
    ensures { IfOk result (λ values. values ≡ invariants_at_lem problem.now heap.now object) }
{
    let env = invariant_environment(problem, heap, object);
    values_of(alloc, env, invariants_of(problem, heap, object))
}

/// How many objects a heap has.
pub fn count_of(problem: &Problem, heap: &[Object]) -> u8
    requires { length heap.now ≤ problem.now.scope.objects }
    ensures { result ≡ length heap.now }
{
    let _objects = problem.scope.objects;
    heap.len() as u8
}

/// The values of the invariants of all objects.
pub fn all_invariants(
    alloc: Global,
    problem: &Problem,
    heap: &[Object],
) -> Result<Items<Seen>, NoMemory>
    requires { length heap.now ≤ problem.now.scope.objects }
    ensures { IfOk result (λ values. values ≡ all_invariants_lem problem.now heap.now) }
{
    let mut values = Items::new(alloc);
    for object in 0..count_of(problem, heap) {
        values.append(invariants_at(alloc, problem, heap, object)?)?;
    }
    Ok(values)
}

/// The values of the method's `requires` clauses.
pub fn needs_of(alloc: Global, problem: &Problem, start: &Start) -> Result<Items<Seen>, NoMemory>
    requires { length start.now.objects ≤ problem.now.scope.objects }
    ensures { IfOk result (λ values. values ≡ needs_of_lem problem.now start.now) }
{
    let heap = start.objects.as_slice();
    let env = Environment {
        problem,
        this: start.this,
        locals: start.args.as_slice(),
        bound: &[],
        result: None,
        heap,
        before: heap,
    };
    values_of(alloc, env, method_in(problem).needs.as_slice())
}

/// The values of the method's `ensures` clauses, where it gives this result and this heap.
pub fn gives_of(
    alloc: Global,
    problem: &Problem,
    start: &Start,
    returned: Option<Value>,
    heap: &[Object],
) -> Result<Items<Seen>, NoMemory>
    requires before { length start.now.objects ≤ problem.now.scope.objects }
    requires after { length heap.now ≤ problem.now.scope.objects }
    ensures { IfOk result (λ values. values ≡ gives_of_lem problem.now start.now returned heap.now) }
{
    let env = Environment {
        problem,
        this: start.this,
        locals: start.args.as_slice(),
        bound: &[],
        result: returned,
        heap,
        before: start.objects.as_slice(),
    };
    values_of(alloc, env, method_in(problem).gives.as_slice())
}

/// Whether a scope was left.
fn is_out(seen: Seen) -> bool
    ensures { result ≡ is_out_lem seen }
{
    match seen {
        Seen::Out => true,
        _ => false,
    }
}

/// Whether the value is true. One that is not defined is not.
pub fn is_true(seen: Seen) -> bool
    ensures { result ≡ is_true_lem seen }
{
    match seen {
        Seen::Is(Value::Flag(truth)) => truth,
        _ => false,
    }
}

/// Whether a scope was left in one of these.
pub fn any_out(values: &[Seen]) -> bool
    ensures { result ≡ list_any is_out_lem values.now }
{
    values.iter().any(|value| is_out(*value))
}

/// Whether all of these are true.
pub fn all_true(values: &[Seen]) -> bool
    ensures { result ≡ list_all is_true_lem values.now }
{
    values.iter().all(|value| is_true(*value))
}
