//! The rows of the commands on lists and integers.
//!
//! `specs/Lists` has the names and the rows. The layer above uses: `named` and `takes` are the table of names; a fact of
//! integers tells its row's value or its first refusal (`Tells`), and so does `length_of`; `concatenation_of` answers its
//! row over any store (`Replies`), since the entries of its lists are values, and `concatenate_onto` does so in the place of
//! its first list.
#![tactic(auto)]

mod concatenation;
mod divisors;
mod extremes;
mod lists;
mod sums;

pub use concatenation::{concatenate_onto, concatenation_of};
pub use lists::{IntegersFact, ListCommand, length_of, named, takes};
