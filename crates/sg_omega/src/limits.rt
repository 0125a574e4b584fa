//! The number that limits the work on omega primality.

/// The greatest sum of an element and the span of its semigroup.
pub const OMEGA_LIMIT: u64 = 65_536;
