//! What a loop goes over: the entries of a list, or the integers of a range, which are not written out.

use sg_value::Items;

/// Integers in a row.
#[derive(Clone, Copy)]
pub struct Range {
    pub first: i64,
    pub count: u64,
}

/// What a loop goes over.
#[derive(Drop)]
pub enum Sequence {
    /// The entries of a list, shared with whoever holds it.
    Listed(Items),
    /// Integers in a row.
    Counted(Range),
}
