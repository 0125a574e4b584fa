//! The limits of every value.

/// The weight of the heaviest value: a value weighs 1, and a list also what its entries weigh.
pub const WEIGHT_LIMIT: u64 = 4_194_304;

/// The depth of the deepest value: a list is 1 deeper than its deepest entry.
pub const NESTING_LIMIT: u64 = 64;
