//! The numbers that limit the work on the tame degree.

/// The greatest sum of the greatest minimal generator and the span.
pub const TAME_LIMIT: u64 = 16_384;

/// No more factorizations of an element than this are compared.
pub const COMPARED_LIMIT: usize = 1_024;
