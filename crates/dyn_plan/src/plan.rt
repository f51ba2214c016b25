use dyn_core::Act;
use sqlite_items::Items;
use std::mem::size_of;

/// A step that leads to one state at most, since each of its choices is decided by a flag variable.
#[derive(Drop)]
pub enum Plan {
    Do(Act),
    /// There is no following state.
    Fail,
    /// The first steps where the variable is true, the second where it is false.
    If(u16, Items<Plan>, Items<Plan>),
    /// The steps again and again while the variable is true.
    While(u16, Items<Plan>),
}

// A plan may have some million steps, so that a step is to be small.
const _: () = prove!(size_of::<Plan>() <= 56);
