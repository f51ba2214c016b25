ghost use Rattle.std.specs.Prelude.{◌≡◌, ◌++◌, ◌<◌, ◌≤◌, length, ℤ, ℕ, List, decimal, Bool, IsTrue, IfOk, IfSome, IfNone, MatchOption};
ghost use Rattle.std.specs.List.{list_all, prefix_len};
ghost use Rattle.std.specs.Fmt.{signed_decimal};
ghost use Rattle.heap_core.specs.Outcomes.{in_bits};
ghost use Rattle.heap_core.specs.declared.value.Value.{Value};
ghost use Rattle.heap_core.specs.declared.value.Value.TheVariants.{Flag};
ghost use Rattle.taco_report.specs.Texts.{object_text, value_text};
ghost use Rattle.taco_report.specs.States.{ends, is_inner, is_value};

use heap_core::Value;
use no_memory::NoMemory;
use std::alloc::Global;
use std::str;
use taco_unit::Kind;

/// What stands behind a literal text that stands first.
pub(crate) fn behind<'a>(text: &'a [u8], literal: &[u8]) -> Option<&'a [u8]>
    ensures { MatchOption result ((more : List ℕ) → text.now ≡ literal.now ++ more → ⊥) (λ rest. text.now ≡ literal.now ++ rest.now) }
{
    text.strip_prefix(literal)
}

/// How many bytes stand before the first space or line feed.
fn word_len(text: &[u8]) -> usize
    ensures value { result ≡ prefix_len is_inner text.now }
    ensures within { result ≤ length text.now }
{
    for (place, byte) in text.iter().enumerate() {
        if *byte == b' ' || *byte == b'\n' {
            return place;
        }
    }
    text.len()
}

/// What stands before the first space or line feed, and what from there on.
pub(crate) fn word_of(text: &[u8]) -> (&[u8], &[u8])
    ensures parts { text.now ≡ result.0.now ++ result.1.now }
    ensures word { IsTrue (list_all is_inner result.0.now) }
    ensures ends { IsTrue (ends result.1.now) }
{
    text.split_at(word_len(text))
}

/// The number of 32 bits that is written so. It is read, and right where it is written again so.
fn number_of(alloc: Global, word: &[u8]) -> Result<Option<i32>, NoMemory>
    ensures { IfOk result (λ r. MatchOption r ((z : ℤ) → IsTrue (in_bits 32 z) → word.now ≡ signed_decimal z → ⊥) (λ z. IsTrue (in_bits 32 z) × (word.now ≡ signed_decimal z))) }
{
    let Ok(text) = str::from_utf8(word) else {
        return Ok(None);
    };
    let Ok(number) = text.parse::<i32>() else {
        return Ok(None);
    };
    let written = format!(in alloc; "{number}")?;
    if written.as_bytes() == word {
        Ok(Some(number))
    } else {
        Ok(None)
    }
}

/// The number below `limit` that is written so.
pub(crate) fn number_below(alloc: Global, limit: u8, word: &[u8]) -> Result<Option<u8>, NoMemory>
    ensures { IfOk result (λ r. MatchOption r ((n : ℕ) → n < limit → word.now ≡ decimal n → ⊥) (λ n. (n < limit) × (word.now ≡ decimal n))) }
{
    let Some(number) = number_of(alloc, word)? else {
        return Ok(None);
    };
    if 0 <= number && number < i32::from(limit) {
        Ok(Some(number as u8))
    } else {
        Ok(None)
    }
}

/// The object below `count` that is written so.
pub(crate) fn object_of(alloc: Global, count: u8, word: &[u8]) -> Result<Option<u8>, NoMemory>
    ensures { IfOk result (λ r. MatchOption r ((o : ℕ) → o < count → word.now ≡ object_text o → ⊥) (λ o. (o < count) × (word.now ≡ object_text o))) }
{
    match behind(word, b"@") {
        Some(digits) => number_below(alloc, count, digits),
        None => Ok(None),
    }
}

/// The value of the kind that is written so, with objects below `count`.
fn value_of(alloc: Global, kind: Kind, count: u8, word: &[u8]) -> Result<Option<Value>, NoMemory>
    ensures { IfOk result (λ r. MatchOption r ((v : Value) → IsTrue (is_value count kind v) → word.now ≡ value_text v → ⊥) (λ v. IsTrue (is_value count kind v) × (word.now ≡ value_text v))) }
{
    match kind {
        Kind::Int => match number_of(alloc, word)? {
            Some(number) => Ok(Some(Value::Num(number))),
            None => Ok(None),
        },
        Kind::Flag => Ok(flag_of(word)),
        Kind::Ref(_) if word == b"null".as_slice() => Ok(Some(Value::Null)),
        Kind::Ref(_) => match object_of(alloc, count, word)? {
            Some(object) => Ok(Some(Value::Obj(object))),
            None => Ok(None),
        },
    }
}

/// The truth value that is written so.
fn flag_of(word: &[u8]) -> Option<Value>
    ensures { MatchOption result ((b : Bool) → word.now ≡ value_text (Flag b) → ⊥) (λ v. (b : Bool) × (v ≡ Flag b) × (word.now ≡ value_text v)) }
{
    if word == b"true".as_slice() {
        Some(Value::Flag(true))
    } else if word == b"false".as_slice() {
        Some(Value::Flag(false))
    } else {
        None
    }
}

/// The value of the kind that stands first, up to a space or a line feed, and what stands behind it.
pub(crate) fn value(
    alloc: Global,
    kind: Kind,
    count: u8,
    text: &[u8],
) -> Result<Option<(Value, &[u8])>, NoMemory>
    ensures found { IfOk result (λ r. IfSome r (λ x. IsTrue (is_value count kind x.0) × (text.now ≡ value_text x.0 ++ x.1.now) × IsTrue (ends x.1.now))) }
    ensures none { IfOk result (λ r. IfNone r ((v : Value) (more : List ℕ) → IsTrue (is_value count kind v) → IsTrue (ends more) → text.now ≡ value_text v ++ more → ⊥)) }
{
    let (word, rest) = word_of(text);
    match value_of(alloc, kind, count, word)? {
        Some(value) => Ok(Some((value, rest))),
        None => Ok(None),
    }
}
