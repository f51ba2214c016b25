//! The part of any action.

ghost use Rattle.std.specs.Prelude.{IfOk};
ghost use Rattle.dyn_steps.specs.Paths.{IsStep};

use crate::heap_steps::write;
use crate::making::make;
use crate::part::{Basis, Front, Part};
use crate::setting::{below, constant, copy, difference, product, read, same, sum};
use dyn_core::Act;
use no_memory::NoMemory;
use std::alloc::Global;

/// The part of an action. Constant in time, but for a new object (`make`).
pub fn act(alloc: Global, basis: Basis<'_>, from: Front, act: Act) -> Result<Part, NoMemory>
    ensures { IfOk result (IsStep basis.entry.problem.now basis.entry.kinds.now act from) }
{
    match act {
        Act::Copy(target, source) => {
            let part = copy(alloc, basis, from, target, source)?;
            Ok(part)
        }
        Act::Const(target, value) => {
            let part = constant(alloc, basis, from, target, value)?;
            Ok(part)
        }
        Act::Sum(target, left, right) => {
            let part = sum(alloc, basis, from, target, left, right)?;
            Ok(part)
        }
        Act::Diff(target, left, right) => {
            let part = difference(alloc, basis, from, target, left, right)?;
            Ok(part)
        }
        Act::Product(target, left, right) => {
            let part = product(alloc, basis, from, target, left, right)?;
            Ok(part)
        }
        Act::Same(target, left, right) => {
            let part = same(alloc, basis, from, target, left, right)?;
            Ok(part)
        }
        Act::Below(target, left, right) => {
            let part = below(alloc, basis, from, target, left, right)?;
            Ok(part)
        }
        Act::Read(target, object, field) => {
            let part = read(alloc, basis, from, target, object, field)?;
            Ok(part)
        }
        Act::Write(object, field, value) => {
            let part = write(alloc, basis, from, object, field, value)?;
            Ok(part)
        }
        Act::Make(target, class) => {
            let part = make(alloc, basis, from, target, class)?;
            Ok(part)
        }
    }
}
