//! Laws of relative ideals of a numerical semigroup: what exists, what is decided, and which generators the canonical and
//! the maximal ideal have. Each is the contract of a function without parameters and without a body, proved from the
//! definitions alone.
//!
//! The logic has no excluded middle, so that a minimal list exists only where it is found. A set of integers that is
//! decided, bounded below and closed under adding members, and that has some integer, has one: of its integers those
//! that are no other and a generator lie between two bounds. Sums, differences, intersections, multiples and
//! translates of ideals are such sets, and so are the canonical and the maximal ideal.
//!
//! The layer above uses the lemmas of `proofs/`: that every row of a command has a value.
#![tactic(auto)]

pub mod laws;
