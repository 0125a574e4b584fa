//! Gluings of a numerical semigroup, and complete intersections.
//!
//! A gluing parts the minimal generators in two, so that the least common multiple of the greatest common divisors of
//! both parts is a sum of multiples of each (Rosales and Garcia-Sanchez, Numerical Semigroups, 2009, chapter 8).
//! Contracts see a `Table` as its minimal generators, a `Split` as the two parts with their divisors. The contracts that
//! the layer above uses: `gluings` lists exactly the gluings, each once, and `is_complete_intersection` tells whether
//! the canonical presentation has one relation less than there are minimal generators.
//!
//! The laws say that a semigroup has one list of its gluings, that the divided parts generate numerical semigroups, and
//! that presentations of both with one relation more join any two factorizations of every element.
#![tactic(auto)]

mod complete;
mod gluing;
pub mod laws;
mod limits;
mod parts;
mod split;
mod sums;

pub use complete::is_complete_intersection;
pub use gluing::gluings;
pub use limits::{GLUING_GENERATORS, GLUING_SPAN_LIMIT, is_gluable};
pub use split::{Split, Splits};
