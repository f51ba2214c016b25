/// The part of a contract that a run breaks. Clauses are counted from 1.
#[derive(Clone, Copy, Debug, PartialEq, Eq)]
pub enum Part {
    /// The run ends by an exception.
    Thrown,
    /// This `ensures` clause of the method is not true.
    Ensures(u8),
    /// The result is null and must not be.
    Result,
    /// Of this object, the field of this number in the unit is null and must not be.
    NonNull(u8, u8),
    /// This invariant of its class is not true at this object.
    Invariant(u8, u8),
}

/// The judgement of a start.
#[derive(Clone, Copy, Debug, PartialEq, Eq)]
pub enum Judged {
    /// A scope is left, so that nothing is said.
    Outside,
    /// The start does not meet the precondition.
    NotAsked,
    Breaks(Part),
    Meets,
}
