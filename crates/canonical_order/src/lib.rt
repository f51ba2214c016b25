//! The canonical order of a start's objects, and the tuples of a problem.
#![tactic(auto)]

mod laws;
mod numbering;
mod order;
mod roots;
#[cfg(test)]
mod tests;
mod tuple;
mod visit;

pub use laws::{each_start_has_one_visit, visits_by_links};
pub use numbering::renumber;
pub use order::is_canonical;
pub use roots::{is_link, is_root, link_at, link_count, root_at, root_count};
pub use tuple::{Tuple, occurs, tuple_at, tuple_count};
pub use visit::visit_order;
