//! Laws of finite sets of vectors: they are listed, counted and searched. No calls.
//!
//! A set is finite where a list holds exactly its items (`IsListing`, in `specs/Listed`). All factorizations of a number
//! and all vectors with a value up to a bound have such lists, made by first places from the greatest down (`specs/
//! Listing`). Of a listed set it is decided whether it has more items than a bound, whether some item or each has a
//! decided property, and whether a walk with decided steps leads from one item to another: the logic has no excluded
//! middle, so that each of these is a search that ends.
//!
//! The layer above uses the lemmas of `proofs/`: `factorizations-listed`, `partial-listed`, `pigeonhole`,
//! `exceeds-iff`, `joined-decided`, and `SetLemmas` on lengths, deltas, classes and chains.
#![tactic(auto)]

pub mod laws;
