//! The semigroups and ideals of a run, each with a number of its own, and the attributes of semigroups.
//!
//! Contracts see `Ids` as what is known: the minimal lists of the semigroups, and the ideals as two minimal lists each.
//! The thing with the id i is entry i of its kind. Entries are never taken away or changed, none stands there twice, and
//! each is within the limits. They see `Attributes` as two memos by their lists and counts.
//!
//! The layer above uses: `intern` and `intern_ideal` give the id of a thing, the old one where it is known; what a known
//! id stands for never changes; `Store::table` and its kin give the attribute of the list of an id, whatever is kept, and
//! each call is one ask of one memo. After a refusal what is known is as it was.
#![tactic(auto)]

mod attributes;
mod ids;
mod key;
mod makers;
mod questions;
mod store;

pub use attributes::{Attributes, Counts};
pub use ids::Ids;
pub use store::Store;
