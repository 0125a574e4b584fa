//! The numbers that limit the work on factorizations. Each has its one home here: conditions, clauses and proofs name it.

/// The greatest element whose lengths are told.
pub const LENGTH_LIMIT: u64 = 16_777_216;

/// No more factorizations of an element than this are listed.
pub const FACTORIZATION_LIMIT: usize = 1_000_000;

/// No more factorizations of an element than this are joined by chains.
pub const CATENARY_LIMIT: usize = 4_096;
