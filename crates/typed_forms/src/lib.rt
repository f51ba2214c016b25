//! The forms of expressions, one by one: the kind and the value of each, or its faults, by those of its parts.
#![tactic(auto)]

mod calls;
mod operators;
mod places;
mod predicates;
mod typed;

pub use calls::{
    call_to_value, class_called, class_of, make, object_called, own_called, with_argument,
};
pub use operators::{literal, minus, negated_value, operated_values, wanted, wants};
pub use places::{
    is_value, named_place, named_value_in_clause, named_value_in_code, place_to_value, read_place,
};
pub use predicates::{
    has_reach, is_clause, is_exit, old_value, quantified_body, quantified_both, result_value,
    size_reach, with_variable,
};
pub use typed::{
    Arguments, Called, Given, Place, Spot, Typed, byte, make_typed, this_value, typed_place, within,
};
