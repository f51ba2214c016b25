ghost use Rattle.std.specs.Prelude.{◌≡◌, ◌≤◌, bytes_eq, decimal, IfSome};
ghost use Rattle.taco_words.specs.Numbers.{number_up_to as number_up_to_lem};

use itoa::Buffer;

/// The number of at most `most` that a word writes in decimal, without leading zeros or a sign.
pub(crate) fn number_up_to(word: &str, most: u64) -> Option<u64>
    ensures number { result ≡ number_up_to_lem most word.now }
    ensures small { IfSome result (λ n. n ≤ most) }
{
    let Ok(number) = word.parse::<u64>() else {
        return None;
    };
    if number <= most && is_written(word, number) {
        Some(number)
    } else {
        None
    }
}

/// Whether a word is the decimal text of a number.
fn is_written(word: &str, number: u64) -> bool
    ensures { result ≡ bytes_eq word.now (decimal number) }
{
    let mut buffer = Buffer::new();
    word == buffer.format(number)
}
