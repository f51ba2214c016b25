ghost use Rattle.std.specs.Prelude.{◌≡◌, ℕ, ◌+◌, ◌-◌, ◌<◌, ◌≤◌, ◌++◌, ◌∷◌, [], false, length, take, map, slice_get, Option, Some, IfOk, IfSome, MatchOption, option_copied};
ghost use Rattle.std.specs.List.{list_all};
ghost use Rattle.taco_unit.specs.declared.expr.Expr.{Expr as Expression};
ghost use Rattle.taco_unit.specs.declared.stmt.Stmt.TheVariants as s;
ghost use Rattle.heap_core.specs.Judge.{Violates, Violable};
ghost use Rattle.taco_unit.specs.Well.{IsWellMethod};
ghost use Rattle.boolean_trial.specs.Found.{Finds};
ghost use Rattle.boolean_trial.specs.Plain.{IsPlain};
ghost use Rattle.boolean_trial.specs.Truth.{truth_of};
ghost use Rattle.boolean_trial.specs.Trial.{start_of, first_untrue, failing as failing_lem, NoneFails};

use crate::truth::truth;
use heap_core::{Part, Problem, Start, Value};
use no_memory::NoMemory;
use sqlite_items::Items;
use std::alloc::Global;
use taco_unit::{Clause, Expr, MethodDef, Stmt, Unit};

/// A start, and the part of the contract that its run breaks.
#[derive(Drop)]
pub struct Breach {
    pub start: Start,
    pub part: Part,
}

/// Whether all of these clauses are true under these arguments.
fn all_true(clauses: &[Clause], args: &[bool]) -> bool
    ensures { result ≡ list_all (λ c. truth_of c.expr args.now false) clauses.now }
{
    clauses.iter().all(|c| truth(&c.expr, args, false))
}

/// The number, counted from 1, of the first clause that is not true.
fn first_not_true(clauses: &[Clause], args: &[bool], outcome: bool) -> Option<u8>
    requires { length clauses.now ≤ 255 }
    ensures { result ≡ first_untrue 1 clauses.now args.now outcome }
{
    for (i, clause) in clauses.iter().enumerate() {
        if !truth(&clause.expr, args, outcome) {
            return Some(i as u8 + 1);
        }
    }
    None
}

/// The number of the `ensures` clause that is broken with these arguments, if they meet the
/// `requires` clauses.
fn failing(needs: &[Clause], value: &Expr, gives: &[Clause], args: &[bool]) -> Option<u8>
    requires { length gives.now ≤ 255 }
    ensures { result ≡ failing_lem needs.now value.now gives.now args.now }
{
    if all_true(needs, args) {
        first_not_true(gives, args, truth(value, args, false))
    } else {
        None
    }
}

/// Tries every list of arguments that begins as this one does, up to the place `at`. Where one
/// fails, the list has become that one.
fn first_failing(
    needs: &[Clause],
    value: &Expr,
    gives: &[Clause],
    args: &mut [bool],
    at: usize,
) -> Option<u8>
    requires within { at ≤ length args.old }
    requires few { length gives.now ≤ 255 }
    ensures found { MatchOption result (NoneFails (failing_lem needs.now value.now gives.now) (take at args.old) (length args.old - at)) (λ k. failing_lem needs.now value.now gives.now args.new ≡ Some k) }
    ensures kept { take at args.new ≡ take at args.old }
{
    if at == args.len() {
        return failing(needs, value, gives, args);
    }
    args[at] = false;
    if let Some(k) = first_failing(needs, value, gives, args, at + 1) {
        return Some(k);
    }
    args[at] = true;
    match first_failing(needs, value, gives, args, at + 1) {
        Some(k) => Some(k),
        None => None,
    }
}

/// The value that a body returns. None where it is not one `return` with a value.
pub(crate) fn returned_value(body: &Stmt) -> Option<&Expr>
    ensures found { (value : Expression) → body.now ≡ s.Block (s.Return (Some value) ∷ []) → option_copied result ≡ Some value }
    ensures is { IfSome result (λ value. body.now ≡ s.Block (s.Return (Some value.now) ∷ [])) }
{
    match body {
        Stmt::Block(parts) => returned_by(parts.as_slice()),
        _ => None,
    }
}

/// The value that these statements return. None where they are not one `return` with a value.
fn returned_by(parts: &[Stmt]) -> Option<&Expr>
    ensures found { (value : Expression) → parts.now ≡ s.Return (Some value) ∷ [] → option_copied result ≡ Some value }
    ensures is { IfSome result (λ value. parts.now ≡ s.Return (Some value.now) ∷ []) }
{
    match parts {
        [Stmt::Return(Some(value))] => Some(value),
        _ => None,
    }
}

/// The start with these arguments.
fn make_start(alloc: Global, args: &[bool]) -> Result<Start, NoMemory>
    ensures { IfOk result (λ made. made ≡ start_of args.now) }
{
    let mut values = Items::new(alloc);
    for b in args {
        values.push(Value::Flag(*b))?;
    }
    Ok(Start {
        objects: Items::new(alloc),
        this: Value::Null,
        args: values,
    })
}

fn item_at(methods: &[MethodDef], at: usize) -> &MethodDef
    requires { at < length methods.now }
    ensures { slice_get methods.now at ≡ Some result.now }
{
    &methods[at]
}

/// The method of this number.
pub(crate) fn method_at(unit: &Unit, method: u8) -> &MethodDef
    requires { method < length unit.now.methods }
    ensures there { slice_get unit.now.methods method ≡ Some result.now }
    ensures well { IsWellMethod unit.now result.now }
{
    item_at(unit.methods.as_slice(), method as usize)
}

/// Tries every list of arguments of this method.
fn tried_method(alloc: Global, method: &MethodDef, value: &Expr) -> Result<Option<Breach>, NoMemory>
    requires few_params { length method.now.params ≤ 8 }
    requires few_gives { length method.now.gives ≤ 255 }
    ensures { IfOk result (Finds method.now value.now) }
{
    let mut flags = [false; 8];
    let args = &mut flags[..method.params.len()];
    let needs = method.needs.as_slice();
    let gives = method.gives.as_slice();
    match first_failing(needs, value, gives, args, 0) {
        Some(k) => Ok(Some(Breach {
            start: make_start(alloc, args)?,
            part: Part::Ensures(k),
        })),
        None => Ok(None),
    }
}

/// Tries every list of arguments of a plain method, of which there are at most 2^8: a start with
/// the part of the contract that its run breaks, where there is one.
pub fn tried(alloc: Global, problem: &Problem) -> Result<Option<Breach>, NoMemory>
    requires { IsPlain problem.now.unit problem.now.method }
    ensures { IfOk result (λ found. MatchOption found (Violable problem.now → ⊥) (λ b. Violates problem.now b.start b.part)) }
{
    let method = method_at(&problem.unit, problem.method);
    match returned_value(&method.body) {
        Some(value) => tried_method(alloc, method, value),
        None => Ok(None),
    }
}
