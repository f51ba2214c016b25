/// The bounds within which runs are judged.
#[derive(Clone, Copy, Debug, PartialEq, Eq)]
pub struct Scope {
    /// The most objects that a heap may have, 1 to 12.
    pub objects: u8,
    /// The bits of an `int`, 2 to 16.
    pub ints: u8,
    /// The most turns of a loop at each entry, 0 to 12.
    pub loops: u8,
    /// How deep calls may be nested, 0 to 4.
    pub calls: u8,
}

/// How the table of tuples is tightened.
#[derive(Clone, Copy, Debug, PartialEq, Eq)]
pub struct Plan {
    /// How many workers share the table, 1 to 16.
    pub workers: u32,
    /// How many rounds each worker goes, 1 to 8.
    pub rounds: u8,
    /// The most conflicts of each query, 0 for no bound.
    pub budget: u64,
}
