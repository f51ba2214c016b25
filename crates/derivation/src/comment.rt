ghost use Rattle.std.specs.Prelude.{◌≡◌, length, IfOk};
ghost use Rattle.derivation.specs.Runs.{in_comment, is_blank, is_line_end, is_white, spot_behind, uncommented};
ghost use Rattle.derivation.specs.declared.comment.Spot.TheVariants.{LineStart as line_start};

use no_memory::NoMemory;
use std::alloc::Global;

/// Where in its line a byte stands.
#[derive(Clone, Copy)]
pub(crate) enum Spot {
    LineStart,
    /// In a line that is no comment.
    Within,
    /// In a comment, behind its `c`.
    Comment,
}

/// The text with a space for each byte of its comment lines, which begin with `c`.
pub(crate) fn without_comments(alloc: Global, text: &[u8]) -> Result<Vec<u8>, NoMemory>
    ensures shown { IfOk result (λ plain. plain.items ≡ uncommented line_start text.now) }
    ensures size { IfOk result (λ plain. length plain.items ≡ length text.now) }
{
    let mut plain = Vec::new(alloc);
    let mut spot = Spot::LineStart;
    for byte in text {
        let hidden = is_in_comment(spot, *byte);
        plain.push(if hidden { b' ' } else { *byte })?;
        spot = behind(spot, *byte);
    }
    Ok(plain)
}

fn is_in_comment(spot: Spot, byte: u8) -> bool
    ensures { result ≡ in_comment spot byte }
{
    match spot {
        Spot::LineStart => byte == b'c',
        Spot::Within => false,
        Spot::Comment => !ends_line(byte),
    }
}

fn behind(spot: Spot, byte: u8) -> Spot
    ensures { result ≡ spot_behind spot byte }
{
    if ends_line(byte) {
        Spot::LineStart
    } else if is_in_comment(spot, byte) {
        Spot::Comment
    } else {
        Spot::Within
    }
}

/// Whether the byte ends a line: a carriage return or a line feed.
pub(crate) fn ends_line(byte: u8) -> bool
    ensures { result ≡ is_line_end byte }
{
    byte == b'\r' || byte == b'\n'
}

/// Whether the byte is a space or a tab.
pub(crate) fn is_space_or_tab(byte: u8) -> bool
    ensures { result ≡ is_blank byte }
{
    byte == b' ' || byte == b'\t'
}

/// Whether the byte is white space.
pub(crate) fn is_white_space(byte: u8) -> bool
    ensures { result ≡ is_white byte }
{
    is_space_or_tab(byte) || byte == 12 || ends_line(byte)
}
