use crate::point::Point;
use heap_core::Problem;
use rel_core::Formula;
use sqlite_items::Boxed;
use taco_unit::Kind;

/// What all parts of a path formula are built over: the problem, and the kinds of the program's variables.
#[derive(Clone, Copy)]
pub struct Basis<'a> {
    pub problem: &'a Problem,
    pub kinds: &'a [Kind],
}

/// How far a path formula has come: the indices of a point of the run, and the next index that no relation has.
#[derive(Drop)]
pub struct Front {
    pub at: Point,
    pub next: u32,
}

/// A part of a path formula, and how far it has come with it.
#[derive(Drop)]
pub struct Part {
    pub formula: Boxed<Formula>,
    pub end: Front,
}
