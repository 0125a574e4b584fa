//! Arf semigroups, those of maximal embedding dimension and saturated ones, and the least of each kind above a semigroup.
//!
//! A semigroup is seen as its minimal list of generators. The one contract that the layer above uses: each test answers
//! its definition over all members, and each closure is the least numerical semigroup of its kind that holds all of the
//! given one; that of maximal embedding dimension is so among those of the same multiplicity. A closure is found by
//! marks on the numbers up to the span, which its condition bounds.
#![tactic(auto)]

mod arf;
mod marks;
mod med;
mod saturated;

pub use arf::{arf_closure, is_arf};
pub use med::{is_med, is_med_by_generators, med_closure};
pub use saturated::{is_saturated, saturated_closure};
