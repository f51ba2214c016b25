/// What a search notes beside its watches and its trail, so that it can say why an entry is true.
#[derive(Drop)]
pub struct Notes {
    /// By clause of the watches, the number by which hints name it.
    pub numbers: Vec<u32>,
    /// By variable, the number of the clause that is its literal alone, where it is true for that.
    pub units: Vec<u32>,
    /// By variable, the level at which it was given a value last.
    pub levels: Vec<u32>,
}
