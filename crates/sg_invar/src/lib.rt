//! The invariants of a numerical semigroup, read off its Apery table.
//!
//! A semigroup is seen as its minimal list of generators, a set of numbers as the ascending list of its members. The
//! one contract that the layer above uses: each answer meets its definition over all integers. So the Frobenius
//! number is the greatest integer that is no member, the genus the number of gaps, and the pseudo-Frobenius numbers
//! are exactly the integers outside that every member above 0 moves inside.
#![tactic(auto)]

mod gap_lists;
mod numbers;
mod pseudo;

pub use gap_lists::{fundamental_gaps, gaps, small_elements};
pub use numbers::{conductor, frobenius, genus};
pub use pseudo::{pseudo_frobenius, special_gaps};
