ghost use Rattle.std.specs.Prelude.{◌≡◌, ◌≤◌};
ghost use Rattle.heap_core.specs.Outcomes.{in_bits as in_bits_lem, number as number_lem, flag as flag_lem, zero_of as zero_of_lem, negative as negative_lem};

use crate::value::{Seen, Value};
use taco_unit::Kind;

/// Whether the number lies in two's complement of this many bits.
pub(crate) fn in_bits(ints: u8, number: i64) -> bool
    requires low { 2 ≤ ints }
    requires high { ints ≤ 16 }
    ensures { result ≡ in_bits_lem ints number }
{
    let edge = 1i64 << (ints - 1);
    -edge <= number && number < edge
}

/// The number, where it lies in two's complement of `ints` bits, 2 to 16. `Out` where it does not:
/// no number is wrapped. Takes no memory.
pub fn number(ints: u8, number: i64) -> Seen
    requires low { 2 ≤ ints }
    requires high { ints ≤ 16 }
    ensures { result ≡ number_lem ints number }
{
    if in_bits(ints, number) {
        Seen::Is(Value::Num(number as i32))
    } else {
        Seen::Out
    }
}

/// A truth value.
pub fn flag(truth: bool) -> Seen
    ensures { result ≡ flag_lem truth }
{
    Seen::Is(Value::Flag(truth))
}

/// The value with which fields and locals of this kind begin.
pub fn zero_of(kind: Kind) -> Value
    ensures { result ≡ zero_of_lem kind }
{
    match kind {
        Kind::Int => Value::Num(0),
        Kind::Flag => Value::Flag(false),
        Kind::Ref(_) => Value::Null,
    }
}

/// The number with the other sign, where it lies in `ints` bits. `Out` where it does not, and for a
/// value that is no number.
pub fn negative(ints: u8, value: Value) -> Seen
    requires low { 2 ≤ ints }
    requires high { ints ≤ 16 }
    ensures { result ≡ negative_lem ints value }
{
    match value {
        Value::Num(x) => number(ints, -i64::from(x)),
        _ => Seen::Out,
    }
}
