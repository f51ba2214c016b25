ghost use Rattle.std.specs.Prelude.{◌≡◌, ◌≤◌, length};
ghost use Rattle.std.specs.List.{list_any, prefix_len};
ghost use Rattle.java_lex.specs.Bytes.{is_of};

/// A class of bytes.
#[derive(Clone, Copy)]
pub(crate) enum Class {
    /// White space: space, tab, form feed, carriage return, line feed.
    White,
    /// What ends a line: carriage return, line feed.
    LineEnd,
    /// All but what ends a line.
    InLine,
    /// What begins a word: a letter, `_`, `$`.
    WordStart,
    /// What stands in a word behind its first byte: a letter, a digit, `_`, `$`.
    WordPart,
    /// A decimal digit.
    Digit,
    /// What stands in a number behind its first digit: a letter, a digit, `_`.
    NumberPart,
    /// What stands in a backslash word: a letter, `_`.
    SlashPart,
    /// `@`.
    At,
}

/// Whether a byte is of the class.
pub(crate) fn is_in(kind: Class, byte: u8) -> bool
    ensures { result ≡ is_of kind byte }
{
    match kind {
        Class::White => byte == b' '
            || byte == b'\t'
            || byte == 12
            || byte == b'\n'
            || byte == b'\r',
        Class::LineEnd => byte == b'\n' || byte == b'\r',
        Class::InLine => !(byte == b'\n' || byte == b'\r'),
        Class::WordStart => byte.is_ascii_alphabetic() || byte == b'_' || byte == b'$',
        Class::WordPart => byte.is_ascii_alphanumeric() || byte == b'_' || byte == b'$',
        Class::Digit => byte.is_ascii_digit(),
        Class::NumberPart => byte.is_ascii_alphanumeric() || byte == b'_',
        Class::SlashPart => byte.is_ascii_alphabetic() || byte == b'_',
        Class::At => byte == b'@',
    }
}

/// How many bytes of the class stand first.
pub(crate) fn run(kind: Class, text: &[u8]) -> usize
    ensures run { result ≡ prefix_len (is_of kind) text.now }
    ensures within { result ≤ length text.now }
{
    for (i, byte) in text.iter().enumerate() {
        if !is_in(kind, *byte) {
            return i;
        }
    }
    text.len()
}

/// Whether some byte is of the class.
pub(crate) fn has(kind: Class, text: &[u8]) -> bool
    ensures { result ≡ list_any (is_of kind) text.now }
{
    text.iter().any(|byte| is_in(kind, *byte))
}
