//! The rows of the commands and operators on relative ideals of numerical semigroups.
//!
//! An ideal is seen as the minimal list of its ambient semigroup and its own. `specs/Rows` has the rows, each by its
//! definition over all integers, `specs/Ideals` the names and which row is whose. The layer above uses: `named` and
//! `takes` are the table of names; each command and operator tells its row's value or its first refusal (`Tells`).
#![tactic(auto)]

mod again;
mod facts;
mod generating;
mod ideals;
mod membership;
mod moved;
mod pairs;
mod settling;

pub use again::known_ideal;
pub use facts::{IdealFact, fact_of};
pub use generating::generated;
pub use ideals::{BothIdeal, IdealCommand, TableIdeal, named, takes};
pub use membership::is_member;
pub use moved::{multiple_of, translate_of};
pub use pairs::{Pair, pair_of};
