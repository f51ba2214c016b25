ghost use Rattle.std.specs.Prelude.{◌≤◌};

use crate::relation::RelVar;
use heap_core::Value;

/// A valuation within a scope of so many objects, and of so many bits of a number.
#[derive(Clone, Copy)]
pub(super) struct View<'a> {
    pub objects: u8,
    pub ints: u8,
    pub pairs: &'a [(RelVar, u8, Value)],
    ghost few: { objects ≤ 12 },
    ghost wide: { 2 ≤ ints },
    ghost narrow: { ints ≤ 16 },
}
