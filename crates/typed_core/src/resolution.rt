ghost use Rattle.java_tree.specs.Seen.{classes_tree};
ghost use Rattle.typed_core.specs.Members.{resolved};
ghost use Rattle.typed_core.specs.Resolved.{Resolves};

use crate::classes::built;
use crate::fault::{NameFault, name_fault};
use crate::unit::make_unit;
use java_tree::Tree;
use std::alloc::Global;
use taco_unit::Unit;

/// The unit of a tree, or of its faults of names and kinds the one with the least place, and at one place the first of
/// `Unknown`, `Twice`, `Kinds` and `TooMany`. `NoMemory` where no memory was to be had.
///
/// Each name is looked up once where it stands, among those that are declared.
pub fn resolve(alloc: Global, tree: &Tree) -> Result<Unit, NameFault>
    ensures { Resolves (resolved (classes_tree tree.now)) result }
{
    match built(alloc, tree)? {
        Ok(built) => {
            let unit = make_unit(alloc, built)?;
            Ok(unit)
        }
        Err(fault) => Err(name_fault(fault)),
    }
}
