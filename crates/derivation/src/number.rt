ghost use Rattle.std.specs.Prelude.{◌≡◌, ◌+◌, ◌*◌, ◌^◌, ◌<◌, ◌≤◌, ◌==◌, ◌&&◌, ◌||◌, nat_lt, ℕ, length, slice_index, IfSome, IfNone, decimal};

use std::str;

/// The number below 2 ^ 32 whose decimal form this is, without leading zeros or a sign.
pub(crate) fn number_of(bytes: &[u8]) -> Option<u32>
    ensures found { IfSome result (λ n. bytes.now ≡ decimal n) }
    ensures none { IfNone result ((n : ℕ) → n < 2 ^ 32 → bytes.now ≡ decimal n → ⊥) }
{
    if is_signed_or_padded(bytes) {
        return None;
    }
    let Ok(text) = str::from_utf8(bytes) else {
        return None;
    };
    let Ok(number) = text.parse::<u32>() else {
        return None;
    };
    Some(number)
}

/// Whether a plus stands first, or a zero before other bytes.
fn is_signed_or_padded(bytes: &[u8]) -> bool
    ensures { result ≡ ((slice_index bytes.now 0 == 43) || ((slice_index bytes.now 0 == 48) && nat_lt 1 (length bytes.now))) }
{
    match bytes {
        [] => false,
        [first, rest @ ..] => *first == b'+' || (*first == b'0' && !rest.is_empty()),
    }
}

/// The number up to `most` whose decimal form this is.
pub(crate) fn number_up_to(bytes: &[u8], most: u32) -> Option<u32>
    ensures found { IfSome result (λ n. (bytes.now ≡ decimal n) × (n ≤ most)) }
    ensures none { IfNone result ((n : ℕ) → n ≤ most → bytes.now ≡ decimal n → ⊥) }
{
    let number = number_of(bytes)?;
    if number <= most { Some(number) } else { None }
}
