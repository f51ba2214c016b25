use crate::relation::RelVar;
use heap_core::Value;
use sqlite_items::Items;

/// Values of relations: each triple gives a value of a relation at a place. Null and objects are the references
/// that the relation has there; of several numbers, or of several truth values, the first counts. A number that
/// no triple gives is 0, and a truth value false.
#[derive(Drop)]
pub struct Valuation {
    pub pairs: Items<(RelVar, u8, Value)>,
}
