//! Worked instances of the definitions of non-unique factorization in `sg_nonunique`, so that each is shown to mean what
//! the textbooks say before anything stands on it.
//!
//! Each instance is a clause of a function without parameters and without a body. The semigroups are small enough to be
//! worked by hand: N = <1>, <2, 3>, <3, 5>, <3, 5, 7>, <6, 10, 15>, and the affine one of [2] and [3]. Most functions have
//! something that the definition holds of, and something that it does not.
//!
//! No crate needs to stand on this one, and it knows no algorithm but the listings of `sg_laws_finite`.
#![tactic(auto)]

pub mod affine;
pub mod catenary;
pub mod classes;
pub mod costs;
pub mod deltas;
pub mod factorizations;
pub mod omega;
pub mod presentations;
