ghost use Rattle.std.specs.Prelude.{◌≡◌, ◌++◌, ◌∷◌, [], Option, slice_get, IfOk, IsTrue};
ghost use Rattle.heap_core.specs.declared.value.Value.{Value};
ghost use Rattle.heap_core.specs.declared.value.Seen.{Seen};
ghost use Rattle.heap_core.specs.Posed.{Posed};
ghost use Rattle.heap_core.specs.Outcomes.{value_in, with_value};
ghost use Rattle.heap_core.specs.Heap.{field as field_lem};
ghost use Rattle.heap_core.specs.Eval.{Env, binary, eval, has, size};
ghost use Rattle.rel_core.specs.Reading.{Reading};
ghost use Rattle.rel_core.specs.Uses.{Kinds};
ghost use Rattle.clause_terms.specs.Terms.{IsSortedTerm, IsSortedTruth, Judges, Tells};
ghost use Rattle.jml_rel.specs.Places.{ShowsVariable, Shows, Sorts, SortsVariable};
ghost use Rattle.jml_rel.specs.Points.{point_of};
ghost use Rattle.jml_rel.specs.Parts.{chain_operator, instance_at, quantified_at};

use crate::guards::is_there;
use crate::links::links;
use crate::place::Place;
use crate::variables::parameter;
use clause_terms::{Instances, Term, Truth};
use heap_core::well_posed;
use no_memory::NoMemory;
use rel_core::RelVar;
use std::alloc::Global;
use taco_unit::{Expr, Kind, Op, Quant};

/// The value of a variable, where it is there.
fn variable(alloc: Global, variable: Option<(Kind, RelVar)>) -> Result<Term, NoMemory>
    ensures told { IfOk result (λ t. (m : Reading) (v : Option Value) → ShowsVariable m variable v → Tells (value_in v) t m) }
    ensures sorted { IfOk result (λ t. (p : Posed) (kinds : Kinds) → SortsVariable p kinds variable → IsSortedTerm p kinds t) }
{
    match variable {
        Some((kind, relation)) => {
            let term = Term::variable(alloc, kind, relation)?;
            Ok(term)
        }
        None => {
            let term = Term::missing(alloc)?;
            Ok(term)
        }
    }
}

/// The object of the quantified variable of this number.
fn object_at(bound: &[u8], number: u8) -> Option<u8>
    ensures { result ≡ slice_get bound.now number }
{
    bound.get(usize::from(number)).copied()
}

/// The object of a quantified variable, where it is there.
fn bound(alloc: Global, place: Place<'_>, number: u8) -> Result<Term, NoMemory>
    ensures told { IfOk result (λ t. (env : Env) (m : Reading) → Shows (point_of place.entry) env m → Tells (value_in (slice_get env.bound number)) t m) }
    ensures sorted { IfOk result (λ t. (kinds : Kinds) → Sorts (point_of place.entry) kinds → IsSortedTerm (point_of place.entry).problem kinds t) }
{
    match object_at(place.bound, number) {
        Some(object) => {
            let term = Term::object(alloc, object)?;
            Ok(term)
        }
        None => {
            let term = Term::missing(alloc)?;
            Ok(term)
        }
    }
}

/// A field of an operand.
fn field(alloc: Global, place: Place<'_>, operand: Term, number: u8) -> Result<Term, NoMemory>
    ensures told { IfOk result (λ t. (env : Env) (m : Reading) (x : Seen) → Shows (point_of place.entry) env m → Tells x operand m → Tells (with_value x (field_lem env.classes env.heap number)) t m) }
    ensures sorted { IfOk result (λ t. (kinds : Kinds) → IsSortedTerm (point_of place.entry).problem kinds operand → IsSortedTerm (point_of place.entry).problem kinds t) }
{
    let problem = place.problem;
    well_posed(problem);
    match problem.unit.fields.get(usize::from(number)) {
        Some(declared) => {
            let term = Term::read(alloc, operand, place.heap, number, declared)?;
            Ok(term)
        }
        None => {
            let term = Term::read_lacking(alloc, operand, place.heap)?;
            Ok(term)
        }
    }
}

/// `.has` of a `\reach` along these fields.
fn member_of(
    alloc: Global,
    place: Place<'_>,
    root: Term,
    fields: &[u8],
    member: Term,
) -> Result<Term, NoMemory>
    ensures told { IfOk result (λ t. (env : Env) (m : Reading) (x y : Seen) → Shows (point_of place.entry) env m → Tells x root m → Tells y member m
        → Tells (with_value x (λ v. with_value y (has env fields.now v))) t m) }
    ensures sorted { IfOk result (λ t. (kinds : Kinds) → IsSortedTerm (point_of place.entry).problem kinds root → IsSortedTerm (point_of place.entry).problem kinds member
        → IsSortedTerm (point_of place.entry).problem kinds t) }
{
    let problem = place.problem;
    well_posed(problem);
    let relations = links(alloc, problem.unit.fields.as_slice(), place.heap, fields)?;
    let term = Term::has(alloc, root, relations.as_slice(), member)?;
    Ok(term)
}

/// `.int_size` of a `\reach` along these fields.
fn size_from(alloc: Global, place: Place<'_>, root: Term, fields: &[u8]) -> Result<Term, NoMemory>
    ensures told { IfOk result (λ t. (env : Env) (m : Reading) (x : Seen) → Shows (point_of place.entry) env m → Tells x root m → Tells (with_value x (size env fields.now)) t m) }
    ensures sorted { IfOk result (λ t. (kinds : Kinds) → IsSortedTerm (point_of place.entry).problem kinds root → IsSortedTerm (point_of place.entry).problem kinds t) }
{
    let problem = place.problem;
    well_posed(problem);
    let relations = links(alloc, problem.unit.fields.as_slice(), place.heap, fields)?;
    let term = Term::size(alloc, root, relations.as_slice())?;
    Ok(term)
}

/// The objects of the quantified variables around an instance, its own last.
fn with_bound(alloc: Global, bound: &[u8], object: u8) -> Result<Vec<u8>, NoMemory>
    ensures { IfOk result (λ all. all.items ≡ bound.now ++ object ∷ []) }
{
    let mut all = Vec::from_slice(alloc, bound)?;
    all.push(object)?;
    Ok(all)
}

/// Whether the operator is that of the chain: `||` where `any` says so, and else `&&`.
fn is_chain(any: bool, op: Op) -> bool
    ensures { IsTrue result → op ≡ chain_operator any }
{
    match op {
        Op::And => !any,
        Op::Or => any,
        _ => false,
    }
}

/// A chain's first part before the rest.
fn before_rest(alloc: Global, any: bool, first: Truth, rest: Truth) -> Result<Truth, NoMemory>
    ensures told { IfOk result (λ t. (m : Reading) (x y : Seen) → Judges x first m → Judges y rest m → Judges (binary (chain_operator any) m.ints x y) t m) }
    ensures sorted { IfOk result (λ t. (p : Posed) (kinds : Kinds) → IsSortedTruth p kinds first → IsSortedTruth p kinds rest → IsSortedTruth p kinds t) }
{
    if any {
        let either = Truth::disjunction(alloc, first, rest)?;
        Ok(either)
    } else {
        let both = Truth::conjunction(alloc, first, rest)?;
        Ok(both)
    }
}

/// A part of a chain that is no chain itself, before the rest.
#[cycle(walk)]
fn last(
    alloc: Global,
    place: Place<'_>,
    any: bool,
    expr: &Expr,
    rest: Truth,
) -> Result<Truth, NoMemory>
    ensures told { IfOk result (λ t. (env : Env) (m : Reading) (y : Seen) → Shows (point_of place.entry) env m → Judges y rest m
        → Judges (binary (chain_operator any) m.ints (eval expr.now env) y) t m) }
    ensures sorted { IfOk result (λ t. (kinds : Kinds) → Sorts (point_of place.entry) kinds → IsSortedTruth (point_of place.entry).problem kinds rest
        → IsSortedTruth (point_of place.entry).problem kinds t) }
{
    let term = walk(alloc, place, expr)?;
    let truth = Truth::of(alloc, term)?;
    let chain = before_rest(alloc, any, truth, rest)?;
    Ok(chain)
}

/// A chain, with what stands behind it in hand: from the right, so that each part is copied as if it stood alone.
#[cycle(walk)]
fn chained(
    alloc: Global,
    place: Place<'_>,
    any: bool,
    expr: &Expr,
    rest: Truth,
) -> Result<Truth, NoMemory>
    ensures told { IfOk result (λ t. (env : Env) (m : Reading) (y : Seen) → Shows (point_of place.entry) env m → Judges y rest m
        → Judges (binary (chain_operator any) m.ints (eval expr.now env) y) t m) }
    ensures sorted { IfOk result (λ t. (kinds : Kinds) → Sorts (point_of place.entry) kinds → IsSortedTruth (point_of place.entry).problem kinds rest
        → IsSortedTruth (point_of place.entry).problem kinds t) }
{
    match expr {
        Expr::Bin(op, a, b) => {
            if is_chain(any, *op) {
                let behind = chained(alloc, place, any, b.get(), rest)?;
                let chain = chained(alloc, place, any, a.get(), behind)?;
                Ok(chain)
            } else {
                let chain = last(alloc, place, any, expr, rest)?;
                Ok(chain)
            }
        }
        _ => {
            let chain = last(alloc, place, any, expr, rest)?;
            Ok(chain)
        }
    }
}

/// An operator of a part and of what the part behind it gives. Chains of `&&` and of `||` go to the right.
#[cycle(walk)]
fn operated(
    alloc: Global,
    place: Place<'_>,
    op: Op,
    left: &Expr,
    second: Term,
) -> Result<Term, NoMemory>
    ensures told { IfOk result (λ t. (env : Env) (m : Reading) (y : Seen) → Shows (point_of place.entry) env m → Tells y second m → Tells (binary op m.ints (eval left.now env) y) t m) }
    ensures sorted { IfOk result (λ t. (kinds : Kinds) → Sorts (point_of place.entry) kinds → IsSortedTerm (point_of place.entry).problem kinds second
        → IsSortedTerm (point_of place.entry).problem kinds t) }
{
    match op {
        Op::And => {
            let rest = Truth::of(alloc, second)?;
            let chain = chained(alloc, place, false, left, rest)?;
            Ok(chain.term())
        }
        Op::Or => {
            let rest = Truth::of(alloc, second)?;
            let chain = chained(alloc, place, true, left, rest)?;
            Ok(chain.term())
        }
        _ => {
            let first = walk(alloc, place, left)?;
            let term = Term::binary(alloc, op, first, second)?;
            Ok(term)
        }
    }
}

/// One instance of a quantifier, whose variable is bound at the place.
#[cycle(walk)]
fn instance(alloc: Global, place: Place<'_>, quant: &Quant) -> Result<Truth, NoMemory>
    ensures told { IfOk result (λ t. (env : Env) (m : Reading) → Shows (point_of place.entry) env m → Judges (instance_at quant.now env) t m) }
    ensures sorted { IfOk result (λ t. (kinds : Kinds) → Sorts (point_of place.entry) kinds → IsSortedTruth (point_of place.entry).problem kinds t) }
{
    let body = walk(alloc, place, quant.body.get())?;
    let body = Truth::of(alloc, body)?;
    match &quant.range {
        None => Ok(body),
        Some(range) => {
            let within = walk(alloc, place, range.get())?;
            let within = Truth::of(alloc, within)?;
            if quant.all {
                let instance = Truth::implication(alloc, within, body)?;
                Ok(instance)
            } else {
                let instance = Truth::conjunction(alloc, within, body)?;
                Ok(instance)
            }
        }
    }
}

/// A quantifier: one instance for each object below K, under the guard that the object is there and of the class.
#[cycle(walk)]
fn quantified(alloc: Global, place: Place<'_>, quant: &Quant) -> Result<Term, NoMemory>
    ensures told { IfOk result (λ t. (env : Env) (m : Reading) → Shows (point_of place.entry) env m → Tells (quantified_at quant.now env) t m) }
    ensures sorted { IfOk result (λ t. (kinds : Kinds) → Sorts (point_of place.entry) kinds → IsSortedTerm (point_of place.entry).problem kinds t) }
{
    let problem = place.problem;
    well_posed(problem);
    let mut instances = Instances::new(alloc);
    for object in 0..problem.scope.objects {
        let bound = with_bound(alloc, place.bound, object)?;
        let inner = Place {
            bound: bound.as_slice(),
            ..place
        };
        let truth = instance(alloc, inner, quant)?;
        let there = is_there(alloc, place.heap, quant.class, object)?;
        instances.add(alloc, quant.all, there, truth)?;
    }
    let term = Instances::over(alloc, quant.all, instances)?;
    Ok(term)
}

/// A clause at a place.
#[cycle(walk)]
pub(crate) fn walk(alloc: Global, place: Place<'_>, expr: &Expr) -> Result<Term, NoMemory>
    ensures told { IfOk result (λ t. (env : Env) (m : Reading) → Shows (point_of place.entry) env m → Tells (eval expr.now env) t m) }
    ensures sorted { IfOk result (λ t. (kinds : Kinds) → Sorts (point_of place.entry) kinds → IsSortedTerm (point_of place.entry).problem kinds t) }
{
    let problem = place.problem;
    match expr {
        Expr::Num(number) => {
            let term = Term::literal(alloc, *number)?;
            Ok(term)
        }
        Expr::Flag(truth) => {
            let term = Term::constant(alloc, *truth)?;
            Ok(term)
        }
        Expr::Null => {
            let term = Term::null(alloc)?;
            Ok(term)
        }
        Expr::This => {
            let term = Term::reference(alloc, place.this)?;
            Ok(term)
        }
        Expr::Result => {
            let term = variable(alloc, place.result)?;
            Ok(term)
        }
        Expr::Local(number) => {
            let term = variable(alloc, parameter(problem, place.before, *number))?;
            Ok(term)
        }
        Expr::Bound(number) => {
            let term = bound(alloc, place, *number)?;
            Ok(term)
        }
        Expr::Read(a, number) => {
            let operand = walk(alloc, place, a.get())?;
            let term = field(alloc, place, operand, *number)?;
            Ok(term)
        }
        Expr::Neg(a) => {
            let operand = walk(alloc, place, a.get())?;
            let term = Term::negative(alloc, operand)?;
            Ok(term)
        }
        Expr::Not(a) => {
            let operand = walk(alloc, place, a.get())?;
            let term = Term::opposite(alloc, operand)?;
            Ok(term)
        }
        Expr::Bin(op, a, b) => {
            let second = walk(alloc, place, b.get())?;
            let term = operated(alloc, place, *op, a.get(), second)?;
            Ok(term)
        }
        Expr::Quant(quant) => {
            let term = quantified(alloc, place, quant)?;
            Ok(term)
        }
        Expr::Old(a) => {
            let before = Place {
                heap: place.before,
                ..place
            };
            let term = walk(alloc, before, a.get())?;
            Ok(term)
        }
        Expr::Has(reach, a) => {
            let root = walk(alloc, place, reach.from.get())?;
            let member = walk(alloc, place, a.get())?;
            let term = member_of(alloc, place, root, reach.fields.as_slice(), member)?;
            Ok(term)
        }
        Expr::Size(reach) => {
            let root = walk(alloc, place, reach.from.get())?;
            let term = size_from(alloc, place, root, reach.fields.as_slice())?;
            Ok(term)
        }
        Expr::New(_) => {
            let term = Term::missing(alloc)?;
            Ok(term)
        }
        Expr::Call(_) => {
            let term = Term::missing(alloc)?;
            Ok(term)
        }
    }
}
