ghost use Rattle.std.specs.Prelude.{◌≡◌, true};
ghost use Rattle.java_tree.specs.Seen.{jml_tree};
ghost use Rattle.reading_core.specs.Gives.{Gives};
ghost use Rattle.expression_reading.specs.Levels.{within_left};
ghost use Rattle.expression_reading.specs.Reading.{steps_in};

use crate::trees;
use expression_reading::deeper;
use java_lex::{Terminal, Token};
use java_tree::JmlTree;
use reading_core::{Stop, first, ident, name, terminal_at};
use std::alloc::Global;

/// The names that are read behind an expression, each behind a `.`. Linear in their bytes.
pub(crate) fn steps<'a>(
    alloc: Global,
    tokens: &'a [Token],
    left: u8,
    start: JmlTree,
) -> Result<(JmlTree, &'a [Token]), Stop<'a>>
    ensures { Gives jml_tree result (steps_in true (within_left true left) (jml_tree start) tokens.now) }
{
    let mut tree = start;
    let mut rest = tokens;
    let mut levels = left;
    while let Some((token, behind)) = first(rest) {
        let Terminal::Dot = terminal_at(token, true) else {
            return Ok((tree, rest));
        };
        let Some(less) = deeper(levels) else {
            return Err(Stop::Deep(rest));
        };
        let (token, after) = name(behind, true)?;
        let name = ident(alloc, token)?;
        tree = trees::read(alloc, tree, name)?;
        rest = after;
        levels = less;
    }
    Ok((tree, rest))
}
