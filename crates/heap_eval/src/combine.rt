ghost use Rattle.std.specs.Prelude.{◌≡◌, ◌≤◌, ℕ, IfSome};
ghost use Rattle.heap_eval.specs.Joined.{joined as joined_lem};
ghost use Rattle.heap_core.specs.Outcomes.{is_true as is_true_lem, as_flag as as_flag_lem, with_value, value_in as value_in_lem, opposite as opposite_lem, negative as negative_lem, operated as operated_lem};
ghost use Rattle.heap_core.specs.Eval.{binary};
ghost use Rattle.heap_core.specs.declared.value.Seen.{Seen};

use heap_core::{Seen, Value, flag, negative, operated, opposite};
use taco_unit::Op;

/// The value, where there is one. `Out` where there is none.
pub(crate) fn value_in(value: Option<Value>) -> Seen
    ensures { result ≡ value_in_lem value }
{
    match value {
        Some(v) => Seen::Is(v),
        None => Seen::Out,
    }
}

/// The truth value. `Out` for a value of another kind, `Bad` and `Out` as they are.
pub(crate) fn as_flag(seen: Seen) -> Seen
    ensures { result ≡ as_flag_lem seen }
{
    match seen {
        Seen::Is(Value::Flag(b)) => flag(b),
        Seen::Is(_) => Seen::Out,
        other => other,
    }
}

/// The opposite of what an operand gives.
pub(crate) fn opposed(operand: Seen) -> Seen
    ensures { result ≡ with_value operand opposite_lem }
{
    match operand {
        Seen::Is(value) => opposite(value),
        other => other,
    }
}

/// What an operand gives, with the other sign.
pub(crate) fn negated(ints: u8, operand: Seen) -> Seen
    requires low { 2 ≤ ints }
    requires high { ints ≤ 16 }
    ensures { result ≡ with_value operand (negative_lem ints) }
{
    match operand {
        Seen::Is(value) => negative(ints, value),
        other => other,
    }
}

/// What the operator makes whatever its right operand gives, where the left one decides.
pub(crate) fn settled(op: Op, left: Seen) -> Option<Seen>
    ensures { IfSome result (λ s. (ints : ℕ) → (right : Seen) → binary op ints left right ≡ s) }
{
    match (op, left) {
        (_, Seen::Bad) | (_, Seen::Out) => Some(left),
        (Op::And, Seen::Is(Value::Flag(false))) => Some(flag(false)),
        (Op::Or, Seen::Is(Value::Flag(true))) => Some(flag(true)),
        (Op::Implies, Seen::Is(Value::Flag(false))) => Some(flag(true)),
        _ => None,
    }
}

/// What an operator that evaluates both operands makes of a value and what the right operand gives.
fn operated_with(ints: u8, op: Op, left: Value, right: Seen) -> Seen
    requires low { 2 ≤ ints }
    requires high { ints ≤ 16 }
    ensures { result ≡ with_value right (operated_lem op ints left) }
{
    match right {
        Seen::Is(value) => operated(ints, op, left, value),
        other => other,
    }
}

/// What the operator makes of what its operands give. `&&`, `||` and `==>` look at the right one only
/// where the left one leaves it to decide.
pub(crate) fn combined(ints: u8, op: Op, left: Seen, right: Seen) -> Seen
    requires low { 2 ≤ ints }
    requires high { ints ≤ 16 }
    ensures { result ≡ binary op ints left right }
{
    match (op, left) {
        (_, Seen::Bad) | (_, Seen::Out) => left,
        (Op::And, Seen::Is(Value::Flag(x))) => if x { as_flag(right) } else { flag(false) },
        (Op::Or, Seen::Is(Value::Flag(x))) => if x { flag(true) } else { as_flag(right) },
        (Op::Implies, Seen::Is(Value::Flag(x))) => if x { as_flag(right) } else { flag(true) },
        (Op::And, _) | (Op::Or, _) | (Op::Implies, _) => Seen::Out,
        (_, Seen::Is(value)) => operated_with(ints, op, value, right),
    }
}

/// What the instances of a quantifier so far give with one more: `Out` before `Bad` before a truth
/// value.
pub(crate) fn joined(all: bool, so_far: Seen, instance: Seen) -> Seen
    ensures { result ≡ joined_lem all so_far instance }
{
    match (so_far, instance) {
        (Seen::Out, _) | (_, Seen::Out) => Seen::Out,
        (Seen::Bad, _) | (_, Seen::Bad) => Seen::Bad,
        _ => if all {
            flag(is_true(so_far) && is_true(instance))
        } else {
            flag(is_true(so_far) || is_true(instance))
        },
    }
}

/// Whether an evaluation gives true.
fn is_true(seen: Seen) -> bool
    ensures { result ≡ is_true_lem seen }
{
    match seen {
        Seen::Is(Value::Flag(b)) => b,
        _ => false,
    }
}
