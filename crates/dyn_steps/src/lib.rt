//! Parts of path formulas: when a formula is one of a relation on states, and the parts of single actions and tests.
#![tactic(auto)]

mod acting;
mod equations;
mod heap_steps;
mod making;
mod objects;
mod part;
mod point;
mod sameness;
mod setting;
mod zero;

pub use acting::act;
pub use heap_steps::write;
pub use making::{make, nothing};
pub use part::{Basis, Front, Part};
pub use point::Point;
pub use sameness::{same_relation, test};
pub use setting::{below, constant, copy, difference, product, read, same, sum};
pub use zero::has_zero;
