ghost use Rattle.std.specs.Prelude.{◌≡◌, ◌==◌, ◌<◌, ◌↔◌, IsTrue, length, map};
ghost use Rattle.std.specs.List.{list_all};
ghost use Rattle.taco_unit.specs.Kinds.{same_kind};
ghost use Rattle.taco_unit.specs.declared.kind.Kind.TheVariants as kind;
ghost use Rattle.boolean_trial.specs.Plain.{is_logical as is_logical_lem, has_result as has_result_lem, is_plain as is_plain_lem, are_plain as are_plain_lem, IsPlain, IsPlainMethod};
ghost use Rattle.boolean_trial.specs.Tests.{form_of, has_flag as has_flag_lem, is_bare as is_bare_lem, is_body, plain_with as plain_with_lem};

use crate::trial::{method_at, returned_value};
use taco_unit::{ClassDef, Clause, Expr, Kind, MethodDef, Op, ParamDef, Unit};

/// Where an expression stands.
#[derive(Clone, Copy, Debug, PartialEq, Eq)]
pub(crate) enum Place {
    /// In the code of a method.
    Body,
    /// In a `requires` clause.
    Before,
    /// In an `ensures` clause.
    After,
}

/// Whether the operator, in this place, makes a truth value of two.
fn is_logical(place: Place, op: Op) -> bool
    ensures { result ≡ is_logical_lem (form_of place) op }
{
    match op {
        Op::Eq | Op::Ne | Op::And | Op::Or => true,
        Op::Implies | Op::Iff => !in_body(place),
        _ => false,
    }
}

fn in_body(place: Place) -> bool
    ensures { result ≡ is_body place }
{
    match place {
        Place::Body => true,
        Place::Before | Place::After => false,
    }
}

/// Whether `\result` may stand in this place.
fn has_result(place: Place) -> bool
    ensures { result ≡ has_result_lem (form_of place) }
{
    match place {
        Place::After => true,
        Place::Body | Place::Before => false,
    }
}

/// Whether the expression is over truth values alone, in this place of a method of so many parameters. Linear in the
/// expression.
fn is_plain_expression(expr: &Expr, count: usize, place: Place) -> bool
    ensures { result ≡ is_plain_lem expr.now count (form_of place) }
{
    match expr {
        Expr::Flag(_) => true,
        Expr::Local(i) => usize::from(*i) < count,
        Expr::Result => has_result(place),
        Expr::Not(a) => is_plain_expression(a.get(), count, place),
        Expr::Bin(op, a, b) => is_logical(place, *op)
            && is_plain_expression(a.get(), count, place)
            && is_plain_expression(b.get(), count, place),
        _ => false,
    }
}

/// Whether all of these clauses are over truth values alone.
fn are_plain(clauses: &[Clause], count: usize, place: Place) -> bool
    ensures { result ≡ are_plain_lem count (form_of place) clauses.now }
{
    clauses
        .iter()
        .all(|c| is_plain_expression(&c.expr, count, place))
}

fn is_flag(declared: Kind) -> bool
    ensures { result ≡ same_kind declared kind.Flag }
{
    matches!(declared, Kind::Flag)
}

fn are_flags(params: &[ParamDef]) -> bool
    ensures { result ≡ list_all (λ p. same_kind p.kind kind.Flag) params.now }
{
    params.iter().all(|p| is_flag(p.kind))
}

fn has_flag(kind: Option<(Kind, bool)>) -> bool
    ensures { result ≡ has_flag_lem kind }
{
    match kind {
        Some((kind, _)) => is_flag(kind),
        None => false,
    }
}

/// Whether a method whose body returns this value is plain.
fn is_plain_with(method: &MethodDef, value: &Expr) -> bool
    ensures { result ≡ plain_with_lem method.now value.now }
{
    let count = method.params.len();
    method.fixed
        && are_flags(method.params.as_slice())
        && has_flag(method.result)
        && method.locals.len() == 0
        && is_plain_expression(value, count, Place::Body)
        && are_plain(method.needs.as_slice(), count, Place::Before)
        && are_plain(method.gives.as_slice(), count, Place::After)
}

/// Whether the method is static and over truth values alone, without locals, and its body is one `return` of such a
/// value. Linear in the method.
fn is_plain_method(method: &MethodDef) -> bool
    ensures { IsTrue result ↔ IsPlainMethod method.now }
{
    match returned_value(&method.body) {
        Some(value) => is_plain_with(method, value),
        None => false,
    }
}

fn have_no_invariants(classes: &[ClassDef]) -> bool
    ensures { result ≡ list_all (λ c. length c.invariants == 0) classes.now }
{
    classes.iter().all(|c| c.invariants.len() == 0)
}

/// Whether the unit has one class, without fields and invariants.
fn is_bare(unit: &Unit) -> bool
    ensures { result ≡ is_bare_lem unit.now }
{
    unit.classes.len() == 1 && unit.fields.len() == 0 && have_no_invariants(unit.classes.as_slice())
}

/// Whether the method of this number is one that `tried` decides: its unit has one class without fields and invariants,
/// the method is static, its parameters and its result are truth values, it has no locals, its body is one `return`, and
/// that value and all clauses are built from truth values, parameters, `\result`, `!`, `==`, `!=`, `&&`, `||` and, in
/// clauses, `==>` and `<==>`. Linear in the unit. Takes no memory.
pub fn is_plain(unit: &Unit, method: u8) -> bool
    requires { method < length unit.now.methods }
    ensures { IsTrue result ↔ IsPlain unit.now method }
{
    is_bare(unit) && is_plain_method(method_at(unit, method))
}
