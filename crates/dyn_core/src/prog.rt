use heap_core::Value;
use sqlite_items::{Boxed, Items};
use std::mem::size_of;

/// One action on the variables and the heap. A variable is named by its number, and the one that is
/// set stands first, but for `Write`.
///
/// An action that would be `Bad` or `Out`, and a `Make` without room, has no following state.
#[derive(Clone, Copy, Debug, PartialEq, Eq)]
pub enum Act {
    Copy(u16, u16),
    /// A variable is set to a value, which is no object.
    Const(u16, Value),
    Sum(u16, u16, u16),
    Diff(u16, u16, u16),
    Product(u16, u16, u16),
    /// Whether two values of one kind are the same.
    Same(u16, u16, u16),
    /// Whether the first number is below the second.
    Below(u16, u16, u16),
    /// A variable is set to the field of this number of the object in another.
    Read(u16, u16, u8),
    /// The field of this number, of the object in the first variable, is set to the second.
    Write(u16, u8, u16),
    /// A variable is set to a new object of the class of this number.
    Make(u16, u8),
}

// A program may have some million nodes, so that a node is to be small.
const _: () = prove!(size_of::<Act>() <= 16);

const _: () = prove!(size_of::<Prog>() <= 32);

/// A program of DynAlloy.
#[derive(Drop)]
pub enum Prog {
    Act(Act),
    /// Goes on exactly where the flag variable has this value.
    Test(u16, bool),
    /// All parts in order.
    Seq(Items<Prog>),
    /// One of the parts.
    Choice(Items<Prog>),
    /// The body any number of times.
    Star(Boxed<Prog>),
}
