use heap_core::{Object, Value};
use sqlite_items::Items;

/// What a program runs on: its variables, by their numbers, and the objects of its heap, by theirs.
/// A variable that the list lacks is null.
#[derive(Drop)]
pub struct DynState {
    pub vars: Items<Value>,
    pub objects: Items<Object>,
}
