//! What the classes of a text declare, and statements with each name resolved to a number: what they become in the
//! unit, or their faults.
#![tactic(auto)]

mod heads;
mod locals;
mod modifiers;
mod statements;
mod words;

pub use heads::{
    field_known, here_in, here_of, is_default, is_object_type, method_known, next, params_fault,
    type_sort, typed_fault, world,
};
pub use locals::Locals;
pub use modifiers::{Marks, first_places, modifier_fault, nullness_fault};
pub use statements::{Piece, body};
pub use words::word_fault;
