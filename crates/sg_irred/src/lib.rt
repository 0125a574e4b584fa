//! Symmetric, pseudo-symmetric and irreducible numerical semigroups.
//!
//! A semigroup is seen as its minimal list of generators. The one contract that the layer above uses: each test
//! answers its definition over every integer, irreducibility that over all pairs of numerical semigroups above. The
//! tests compare the genus with the Frobenius number and look at no pair. `decompose` gives irreducible semigroups that
//! meet in the given one, of which none can be left out: the covers of chosen special gaps, by their minimal generators.
#![tactic(auto)]

mod cover_of;
mod decomposition;
mod symmetry;

pub use cover_of::cover;
pub use decomposition::decompose;
pub use symmetry::{is_irreducible, is_pseudo_symmetric, is_symmetric};
