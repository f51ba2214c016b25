ghost use Rattle.std.specs.Prelude.{◌≡◌, ◌+◌, ◌≤◌, false, length, IfSome};
ghost use Rattle.java_lex.specs.Literals.{first_close as first_close_lem, number_from, number_of, quoted_len as quoted_len_lem};

use crate::classes::{Class, is_in};

/// The place of the first `*/`.
pub(crate) fn first_close(text: &[u8]) -> Option<usize>
    ensures first { result ≡ first_close_lem text.now }
    ensures within { IfSome result (λ n. n + 2 ≤ length text.now) }
{
    let mut rest = text;
    let mut place = 0;
    while let [_, behind @ ..] = rest {
        if rest.starts_with(b"*/") {
            return Some(place);
        }
        place += 1;
        rest = behind;
    }
    None
}

/// How many bytes there are up to the closing quote and with it. None where the line ends before.
pub(crate) fn quoted_len(quote: u8, text: &[u8]) -> Option<usize>
    ensures closed { result ≡ quoted_len_lem quote false text.now }
    ensures within { IfSome result (λ n. n ≤ length text.now) }
{
    let mut escaped = false;
    for (i, byte) in text.iter().enumerate() {
        if is_in(Class::LineEnd, *byte) {
            return None;
        }
        if !escaped && *byte == quote {
            return Some(i + 1);
        }
        escaped = !escaped && *byte == b'\\';
    }
    None
}

/// The number of decimal digits without a leading zero, up to 2147483647.
pub(crate) fn number(digits: &[u8]) -> Option<u32>
    ensures { result ≡ number_of digits.now }
{
    match digits {
        [] => None,
        [b'0'] => Some(0),
        [b'0', ..] => None,
        _ => number_behind(digits),
    }
}

/// The number of decimal digits, up to 2147483647.
fn number_behind(digits: &[u8]) -> Option<u32>
    ensures { result ≡ number_from 0 digits.now }
{
    let mut value: u64 = 0;
    for digit in digits {
        if !is_in(Class::Digit, *digit) {
            return None;
        }
        value = 10 * value + (*digit - b'0') as u64;
        if value > 2147483647 {
            return None;
        }
    }
    Some(value as u32)
}
