//! What the classes of a text declare, what a name means where it stands, and faults of names and kinds.
#![tactic(auto)]

mod fault;
mod names;
mod sort;
mod world;

pub use fault::{Cause, Fault, beside, earlier, pair, sooner, unless};
pub use names::Names;
pub use sort::{Sort, fits, is_object};
pub use world::{
    Declared, FieldKnown, Form, Here, MethodKnown, ParamKnown, ResultKnown, Slot, World,
    class_place, declared_slot, field_slot, is_fresh, local_slot, method_named,
};
