//! The trial of plain methods: every list of arguments is tried.
#![tactic(auto)]

mod plainness;
mod trial;
mod truth;

pub use plainness::is_plain;
pub use trial::{Breach, tried};
