ghost use Rattle.std.specs.Prelude.{◌≡◌, IfOk, ◌++◌, ◌∷◌, [], slice_get};
ghost use Rattle.heap_core.specs.declared.value.Value.TheVariants.{Obj};
ghost use Rattle.heap_core.specs.Outcomes.{with_value, value_in as value_in_lem};
ghost use Rattle.heap_core.specs.Heap.{field as field_lem};
ghost use Rattle.heap_core.specs.Eval.{eval, bind};
ghost use Rattle.heap_eval.specs.Environs.{env_of, IsWithin, instance_at, quantified_at, range_operator as range_operator_lem};

use crate::combine::{as_flag, combined, joined, negated, opposed, settled, value_in};
use crate::environment::Environment;
use crate::reach::{has, size};
use heap_core::{Seen, Value, field, flag, is_of, number};
use no_memory::NoMemory;
use std::alloc::Global;
use taco_unit::{Expr, Op, Quant};

/// The value of this number. `Out` where there is none.
fn value_at(values: &[Value], place: u8) -> Seen
    ensures { result ≡ value_in_lem (slice_get values.now place) }
{
    value_in(values.get(usize::from(place)).copied())
}

/// A field of what an operand gives.
fn field_of(env: Environment<'_>, operand: Seen, number: u8) -> Seen
    ensures { result ≡ with_value operand (field_lem (env_of env.entry).classes (env_of env.entry).heap number) }
{
    let problem = env.problem;
    match operand {
        Seen::Is(value) => field(&problem.unit, env.heap, number, value),
        other => other,
    }
}

/// The quantified variables around an instance, its own last.
fn with_bound(alloc: Global, bound: &[Value], object: u8) -> Result<Vec<Value>, NoMemory>
    ensures { IfOk result (λ all. all.items ≡ bound.now ++ Obj object ∷ []) }
{
    let mut all = Vec::from_slice(alloc, bound)?;
    all.push(Value::Obj(object))?;
    Ok(all)
}

/// The operator between the range of a quantifier and its body.
fn range_operator(all: bool) -> Op
    ensures { result ≡ range_operator_lem all }
{
    if all { Op::Implies } else { Op::And }
}

/// One instance of a quantifier, whose variable is bound in the environment.
#[cycle(walk)]
fn instance(alloc: Global, env: Environment<'_>, quant: &Quant) -> Result<Seen, NoMemory>
    requires { IsWithin (env_of env) }
    ensures { IfOk result (λ s. s ≡ instance_at quant.now (env_of env.entry)) }
{
    let problem = env.problem;
    match &quant.range {
        None => Ok(as_flag(evaluate(alloc, env, quant.body.get())?)),
        Some(range) => {
            let op = range_operator(quant.all);
            let left = evaluate(alloc, env, range.get())?;
            match settled(op, left) {
                Some(seen) => Ok(seen),
                None => {
                    let right = evaluate(alloc, env, quant.body.get())?;
                    Ok(combined(problem.scope.ints, op, left, right))
                }
            }
        }
    }
}

/// A quantifier: one pass over the objects, and of those of its class one instance each. An instance
/// that is `Bad` does not end it, since a later one may be `Out`.
#[cycle(walk)]
#[tactic(auto, using(crate::proofs::Ranges::over_more))]
fn quantified(alloc: Global, env: Environment<'_>, quant: &Quant) -> Result<Seen, NoMemory>
    requires { IsWithin (env_of env) }
    ensures { IfOk result (λ s. s ≡ quantified_at quant.now (env_of env.entry)) }
{
    let problem = env.problem;
    let mut outcome = flag(quant.all);
    for object in 0..problem.scope.objects {
        if is_of(env.heap, quant.class, object) {
            let bound = with_bound(alloc, env.bound, object)?;
            let inner = Environment {
                bound: bound.as_slice(),
                ..env
            };
            outcome = joined(quant.all, outcome, instance(alloc, inner, quant)?);
        }
    }
    Ok(outcome)
}

/// What a clause evaluates to in heaps within the scope: a value, `Bad` where null is read through,
/// `Out` where a number leaves its width. Operands are evaluated from left to right, and the first
/// that is `Bad` or `Out` decides; `&&`, `||` and `==>` evaluate their right one only where the left
/// one leaves it to decide.
///
/// It calls itself for the parts of the clause, which in a text that was read has at most 64 levels
/// of nesting. The cost is linear in the clause, times the scope's objects for each quantifier around
/// a part; a `\reach` goes once through the fields of each object that it holds. Memory is taken for
/// the variables of quantifiers alone.
#[cycle(walk)]
pub fn evaluate(alloc: Global, env: Environment<'_>, expr: &Expr) -> Result<Seen, NoMemory>
    requires { IsWithin (env_of env) }
    ensures { IfOk result (λ s. s ≡ eval expr.now (env_of env.entry)) }
{
    let problem = env.problem;
    let ints = problem.scope.ints;
    match expr {
        Expr::Num(z) => Ok(number(ints, i64::from(*z))),
        Expr::Flag(b) => Ok(flag(*b)),
        Expr::Null => Ok(Seen::Is(Value::Null)),
        Expr::This => Ok(Seen::Is(env.this)),
        Expr::Result => Ok(value_in(env.result)),
        Expr::Local(i) => Ok(value_at(env.locals, *i)),
        Expr::Bound(i) => Ok(value_at(env.bound, *i)),
        Expr::Read(a, f) => Ok(field_of(env, evaluate(alloc, env, a.get())?, *f)),
        Expr::Neg(a) => Ok(negated(ints, evaluate(alloc, env, a.get())?)),
        Expr::Not(a) => Ok(opposed(evaluate(alloc, env, a.get())?)),
        Expr::Bin(op, a, b) => {
            let left = evaluate(alloc, env, a.get())?;
            match settled(*op, left) {
                Some(seen) => Ok(seen),
                None => Ok(combined(ints, *op, left, evaluate(alloc, env, b.get())?)),
            }
        }
        Expr::Quant(q) => quantified(alloc, env, q),
        Expr::Old(a) => {
            let before = Environment {
                heap: env.before,
                ..env
            };
            evaluate(alloc, before, a.get())
        }
        Expr::Has(r, a) => match evaluate(alloc, env, r.from.get())? {
            Seen::Is(from) => match evaluate(alloc, env, a.get())? {
                Seen::Is(value) => Ok(has(env, r.fields.as_slice(), from, value)),
                other => Ok(other),
            },
            other => Ok(other),
        },
        Expr::Size(r) => match evaluate(alloc, env, r.from.get())? {
            Seen::Is(from) => Ok(size(env, r.fields.as_slice(), from)),
            other => Ok(other),
        },
        Expr::New(_) | Expr::Call(_) => Ok(Seen::Out),
    }
}
