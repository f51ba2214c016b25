/// What a relation is of.
#[derive(Clone, Copy, Debug, PartialEq, Eq)]
pub enum What {
    /// Which objects are there: a flag at each object.
    Live,
    /// The class of each object, as a number.
    ClassOf,
    /// The field of this number of the unit, at each object.
    Field(u8),
    /// The program variable of this number, at place 0 alone.
    Slot(u16),
}

/// A relation: a field, a variable, or which objects are there, at one of several points of a run. Points are
/// told by the index.
#[derive(Clone, Copy, Debug, PartialEq, Eq)]
pub struct RelVar {
    pub what: What,
    pub index: u32,
}
