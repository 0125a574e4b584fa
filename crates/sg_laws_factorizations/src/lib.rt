//! What exists, what is decided and what is unique, of the factorizations of a numerical semigroup: each is a law, the contract of a
//! function without parameters and without a body, proved from the definitions alone.
//!
//! Of an element: its list of factorizations, whether there are more than a bound, its lengths, deltas, catenary degree
//! and omega primality. Of a semigroup: its elasticity, Betti elements, canonical relations, catenary degree, least and
//! greatest delta and omega primality.
//!
//! The layer above uses the lemmas of `proofs/`: that every row of a command on factorizations has a value, and one at
//! most.
#![tactic(auto)]

pub mod laws;
