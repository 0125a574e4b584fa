//! The tame degree of a numerical semigroup.
//!
//! Contracts see a `Table` as its minimal generators; the definition is over all factorizations of all elements
//! (`specs/Tame`). The contract that the layer above uses: `tame` is the tame degree, or tells that some element that
//! has to be looked at has too many factorizations.
//!
//! The law: of the factorizations of all elements those matter that are minimal above a generator, which are the minimal
//! vectors of `sg_omega`; the tame degree is the greatest, over the generators and these vectors, of the least distance
//! from the vector to one of the same value that uses the generator. Their values are sums of a generator and of an
//! element of an Apery set, so each such number is looked at once, for all places.
#![tactic(auto)]

mod answer;
mod degree;
pub mod laws;
mod limits;
mod nearest;
mod needed;

pub use answer::TameAnswer;
pub use degree::tame;
pub use limits::{COMPARED_LIMIT, TAME_LIMIT};
