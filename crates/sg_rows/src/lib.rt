//! What every row of a command or an operator is made of: faults, kinds of arguments, and the order of refusals.
//!
//! A row says what a call answers over plain data, in which a semigroup or an ideal is its minimal lists: its conditions,
//! and its value as a relation (`specs/Order`). Beside it stands what the call asks for, as pairs of an attribute and a
//! minimal list (`specs/Asks`, `Forms`). The order in which refusals come, and the limits on every value, are stated once,
//! for all rows. This crate knows no command and no store.
//!
//! The layer above uses: `Tells` (`specs/Made`) is the contract of every function that tells a row, by what it is told of
//! (`OfTable` and its kin); `Replies` (`specs/Replies`) is that of every call that answers one over a store.
#![tactic(auto)]

mod fault;
mod kinds;
mod limits;
mod made;
mod names;
mod told;

pub use fault::{CallFault, Fault};
pub use kinds::{
    entries_of, ideal_of, integer_of, integer_then_ideal, integer_then_semigroup, integers_of,
    list_or_integers, list_then_semigroup, one_ideal, one_list, one_list_of_integers,
    one_semigroup, semigroup_and_integer, semigroup_of, three_integers, two_ideals, two_integers,
    two_semigroups,
};
pub use limits::{is_heavy, is_wide};
pub use made::{Made, integer, quotient};
pub use names::{Named, find};
pub use told::{
    OfGenerators, OfIntegers, OfNumbers, OfTable, OfTableAndInteger, OfTableAndNumbers,
};
