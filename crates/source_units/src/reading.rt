ghost use Rattle.std.specs.Prelude.{◌≤◌, length};
ghost use Rattle.source_units.specs.Told.{Tells};

use crate::refusal::Unread;
use java_reader::read_unit;
use std::alloc::Global;
use taco_unit::Unit;
use typed_core::resolve;

/// The unit of the bytes of a Java text with JML contracts, or their first fault: `BadToken` over the whole text first,
/// then `Syntax`, `Unsupported` or `Deep` at the first token that has one, then the fault of names and kinds with the
/// least place, and at one place the first of `Unknown`, `Twice`, `Kinds` and `TooMany`.
pub fn unit_of(alloc: Global, text: &[u8]) -> Result<Unit, Unread>
    requires { length text.now ≤ 67108864 }
    ensures { Tells text.now result }
{
    let tree = read_unit(alloc, text)?;
    let unit = resolve(alloc, &tree)?;
    Ok(unit)
}
