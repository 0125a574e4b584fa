//! The rows of the commands that make numerical semigroups.
//!
//! Each tells the minimal list of the semigroup that its condition defines over all naturals. `specs/Makers` has the names
//! and which row is whose, `specs/Rows` the rows. The layer above uses: `named` and `takes` are the table of names; each
//! command tells its row's value or its first refusal (`Tells`).
#![tactic(auto)]

mod derived;
mod entries;
mod from_integers;
mod maker;
mod proportions;
mod settling;

pub use derived::{intersection, quotient_by};
pub use maker::{IntegersMaker, Maker, named, takes};
pub use proportions::{modular, proportional};
