/// What is asked of the objects of a heap.
#[derive(Clone, Copy)]
pub(crate) enum Asked {
    /// No field is null that must not be, and the invariants are true.
    Good,
    /// No invariant leaves the scopes.
    Inside,
}
