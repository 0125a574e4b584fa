//! Worked instances of the definitions of numerical semigroups in `sg_defs`, so that each is shown to mean what the
//! textbooks say before anything stands on it.
//!
//! Each instance is a clause of a function without parameters and without a body: what it says is proved from the
//! definitions alone. The semigroups are small enough to be worked by hand: N = <1>, <3, 4>, <3, 5>, <3, 5, 7>,
//! <3, 7, 8> and <4, 6, 7, 9>. Most functions have something that the definition holds of, and something that it
//! does not. The module `laws` has what holds of every semigroup.
//!
//! No crate needs to stand on this one, and it knows no algorithm.
#![tactic(auto)]

pub mod closures;
pub mod decomposition;
pub mod ideals;
pub mod invariants;
pub mod laws;
pub mod membership;
pub mod symmetry;
pub mod vectors;
