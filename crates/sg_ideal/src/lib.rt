//! Relative ideals of a numerical semigroup.
//!
//! Contracts see an `Ideal` as the minimal generators of its ambient semigroup and its own minimal generators. It keeps
//! these, and for each residue class modulo the multiplicity how far its least member there lies from the least of all.
//! The one contract that the layer above uses: each call's ideal has exactly the integers that its definition names,
//! over all integers, and `contains` is membership. No call here knows a command.
#![tactic(auto)]

mod classes;
mod fault;
mod fold;
mod given;
mod heads;
mod ideal;
mod made;
mod moved;
mod own;
mod pairs;

pub use fault::IdealFault;
pub use fold::multiple;
pub use ideal::Ideal;
pub use moved::translate;
pub use own::{canonical, maximal};
pub use pairs::{intersect, subtract, sum};
