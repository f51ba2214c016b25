//! How Java texts are read: the definition of reading, part by part, its laws, and the tokens that it goes by.
#![tactic(auto)]

mod form;
mod marks;
mod part_form;
#[cfg(test)]
mod tests;
mod tokens;

pub use form::{Form, Reached, Turn, form_at, turn_at};
pub use marks::{Fixed, is_it};
pub use part_form::{PartForm, part_form_at};
pub use tokens::{fixed, fixed_at, lower, name, next_is, next_is_name};
