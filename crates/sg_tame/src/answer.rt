//! What is told of the tame degree.

/// The tame degree, or why it is not told.
#[derive(Clone, Copy, Debug, PartialEq, Eq)]
pub enum TameAnswer {
    /// The tame degree.
    Degree(u64),
    /// Some sum of a generator and of an element of an Apery set has more than `COMPARED_LIMIT` factorizations.
    TooMany,
}
