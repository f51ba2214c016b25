ghost use Rattle.std.specs.Prelude.{◌≡◌, ◌/◌, ◌<◌, length};
ghost use Rattle.bounds_table.specs.Marks.{mark_of};

use sqlite_items::Items;
use tuple_sets::has;

/// What is known of the tuples of a problem.
#[derive(Drop)]
pub struct Marks {
    /// How many tuples there are.
    pub tuples: u32,
    /// The tuples that were not cleared, as words of 64 bits.
    pub table: Items<u64>,
    /// The tuples that were kept, as words of 64 bits.
    pub kept: Items<u64>,
}

/// What is known of one tuple.
#[derive(Clone, Copy, Debug, PartialEq, Eq)]
pub enum Mark {
    /// The table lacks it.
    Cleared,
    /// It is kept.
    Kept,
    /// Neither.
    Open,
}

impl Marks {
    /// The mark of the tuple of this number. Takes no memory.
    pub fn mark(&self, tuple: u32) -> Mark
        requires count { tuple < self.now.tuples }
        requires table { tuple / 64 < length self.now.table }
        requires kept { tuple / 64 < length self.now.kept }
        ensures { result ≡ mark_of self.now tuple }
    {
        if !has(self.table.as_slice(), tuple) {
            Mark::Cleared
        } else if has(self.kept.as_slice(), tuple) {
            Mark::Kept
        } else {
            Mark::Open
        }
    }
}
