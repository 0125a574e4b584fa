//! How deeply a text may nest.

/// So many brackets and blocks may be open at once in the text of a statement.
pub const NESTING_LIMIT: u64 = 64;
