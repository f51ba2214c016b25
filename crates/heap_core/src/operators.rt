ghost use Rattle.std.specs.Prelude.{◌≡◌, ◌≤◌};
ghost use Rattle.heap_core.specs.Outcomes.{with_value, same as same_lem, opposite as opposite_lem, equivalent as equivalent_lem, operated as operated_lem};

use crate::numbers::{flag, number};
use crate::value::{Seen, Value};
use taco_unit::Op;

/// Whether two values of one kind are the same. `Out` for values of two kinds.
fn same(a: Value, b: Value) -> Seen
    ensures { result ≡ same_lem a b }
{
    match (a, b) {
        (Value::Null, Value::Null) => flag(true),
        (Value::Null, Value::Obj(_)) | (Value::Obj(_), Value::Null) => flag(false),
        (Value::Obj(o), Value::Obj(p)) => flag(o == p),
        (Value::Num(x), Value::Num(y)) => flag(x == y),
        (Value::Flag(x), Value::Flag(y)) => flag(x == y),
        _ => Seen::Out,
    }
}

/// The opposite truth value. `Out` for a value of another kind, `Bad` and `Out` as they are.
fn opposed(seen: Seen) -> Seen
    ensures { result ≡ with_value seen opposite_lem }
{
    match seen {
        Seen::Is(value) => opposite(value),
        other => other,
    }
}

/// The opposite truth value. `Out` for a value of another kind.
pub fn opposite(value: Value) -> Seen
    ensures { result ≡ opposite_lem value }
{
    match value {
        Value::Flag(b) => flag(!b),
        _ => Seen::Out,
    }
}

/// Whether two truth values are the same. `Out` for values of another kind.
fn equivalent(a: Value, b: Value) -> Seen
    ensures { result ≡ equivalent_lem a b }
{
    match (a, b) {
        (Value::Flag(x), Value::Flag(y)) => flag(x == y),
        _ => Seen::Out,
    }
}

/// What an operator that evaluates both operands makes of their values: `Out` where the number that
/// it makes leaves `ints` bits, 2 to 16, for values of kinds that it does not take, and for `&&`,
/// `||` and `==>`. Takes no memory.
pub fn operated(ints: u8, op: Op, a: Value, b: Value) -> Seen
    requires low { 2 ≤ ints }
    requires high { ints ≤ 16 }
    ensures { result ≡ operated_lem op ints a b }
{
    match (op, a, b) {
        (Op::Eq, _, _) => same(a, b),
        (Op::Ne, _, _) => opposed(same(a, b)),
        (Op::Iff, _, _) => equivalent(a, b),
        (Op::Add, Value::Num(x), Value::Num(y)) => number(ints, i64::from(x) + i64::from(y)),
        (Op::Sub, Value::Num(x), Value::Num(y)) => number(ints, i64::from(x) - i64::from(y)),
        (Op::Mul, Value::Num(x), Value::Num(y)) => number(ints, i64::from(x) * i64::from(y)),
        (Op::Lt, Value::Num(x), Value::Num(y)) => flag(x < y),
        (Op::Le, Value::Num(x), Value::Num(y)) => flag(x <= y),
        (Op::Gt, Value::Num(x), Value::Num(y)) => flag(x > y),
        (Op::Ge, Value::Num(x), Value::Num(y)) => flag(x >= y),
        _ => Seen::Out,
    }
}
