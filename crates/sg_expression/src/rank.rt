//! The lines of the grammar that have operators of chains.

/// Operators that bind equally tightly, and their operands.
#[derive(Clone, Copy, PartialEq, Eq, Debug)]
pub enum Rank {
    /// Operands of `or`.
    Or,
    /// Operands of `and`.
    And,
    /// Operands of `+` and `-`.
    Sum,
    /// Operands of `*` and `mod`.
    Product,
}
