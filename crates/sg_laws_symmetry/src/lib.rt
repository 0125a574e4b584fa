//! Laws of the kinds of numerical semigroups: which kinds one is of is decided, what a kind asks for exists, and what a
//! decomposition is good for. Each is the contract of a function without parameters and without a body, proved from the
//! definitions alone.
//!
//! Symmetric, pseudo-symmetric and irreducible semigroups are told by the genus and the conductor, those of maximal
//! embedding dimension by the number of generators, saturated ones by the divisors of their generators. Each semigroup
//! has a decomposition into irreducible ones and a saturated closure.
//!
//! The layer above uses the lemmas of `proofs/`: that the rows on kinds have a value.
#![tactic(auto)]

pub mod laws;
