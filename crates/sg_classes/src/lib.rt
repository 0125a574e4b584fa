//! Numerical semigroups by the least member in each residue class: what an Apery list is, what it tells, and the limits
//! within which there is a table of one.
//!
//! A semigroup is seen as a list of generators, a table of classes as a list of numbers. Definitions that every crate on
//! tables cites stand here, and the lemmas on residues, on generators and on Kunz's conditions. The one contract that
//! the layer above uses: `is_above_entry` compares a number with the entry of its class, which for an Apery list is
//! membership, as the laws say.
#![tactic(auto)]

mod classes;
mod entries;
pub mod laws;
mod limits;

pub use classes::{is_above_entry, lower_all};
pub use entries::{are_small, greatest, is_numerical_semigroup, sort_distinct};
pub use limits::{
    APERY_ENTRY_LIMIT, APERY_MODULUS_LIMIT, FUNDAMENTAL_GAP_LIMIT, GENERATOR_LIMIT, MODULUS_LIMIT,
    MULTIPLICITY_LIMIT, NARROW_GENERATORS, NARROW_PRODUCT, SPAN_LIMIT,
};
