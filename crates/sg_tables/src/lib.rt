//! The Apery list and the minimal generators of given numbers, and of a list that may be an Apery list.
//!
//! A table is a list of numbers, one for each residue class modulo its length. The one contract that the layer above
//! uses: `apery_list` is the Apery list modulo the least generator, with the minimal generators, `list_modulo` that
//! modulo another member, and `is_kunz` tells whether a list is the Apery list of some semigroup, whose minimal
//! generators `kunz_generators` gives.
#![tactic(auto)]

mod circles;
mod closing;
mod counts;
mod few;
mod filling;
mod kunz;
mod leads;
mod marks;
mod minimal;
mod modulus;
mod sources;
mod spread;
mod steps;
mod sums;
mod visits;

pub use filling::{apery_list, apery_list_of_minimal};
pub use kunz::{is_kunz, kunz_generators};
pub use modulus::list_modulo;
