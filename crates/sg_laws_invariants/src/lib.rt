//! Laws of what exists and what is decided, of numerical semigroups: each is the contract of a function without
//! parameters and without a body, proved from the definitions alone.
//!
//! The logic has no excluded middle, so that an invariant exists only where one is found, and a condition is decided
//! only by a search that ends. Members of a list are decided; a set of naturals that is closed under sums and has all
//! from some number on has a minimal list; and a numerical semigroup has each of its invariants.
//!
//! The layer above uses the lemmas of `proofs/`: that every row of a command has a value.
#![tactic(auto)]

pub mod laws;
