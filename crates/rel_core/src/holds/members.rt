/// Whether null is in a set, and of the first objects which are.
#[derive(Clone, Copy)]
pub(super) struct Members {
    pub null: bool,
    pub objects: [bool; 12],
}
