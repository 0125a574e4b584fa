//! The values of scripts: how large they are, when they are equal, and the text that `Print` writes for them.
//!
//! A value holds a semigroup or an ideal by its place in a store. Contracts see a value as plain data, in two ways:
//! `contents v` has the places, and `plain names v` has the minimal lists that they stand for, and no store, place,
//! capacity or allocator. Each meaning here (weight, depth, printed text) is a function of plain data.
//!
//! The layer above uses: `equal` is equality of contents, and over one store of plain values (`laws`); `print_into`
//! appends the text of the plain value, where each place in it is known to the names.
#![tactic(auto)]

mod copy;
mod equality;
mod id;
mod items;
pub mod laws;
mod limits;
mod names;
mod print;
mod size;
mod text;
mod value;

pub use copy::try_clone;
pub use equality::equal;
pub use id::{IdealId, SemId};
pub use items::Items;
pub use limits::{NESTING_LIMIT, WEIGHT_LIMIT};
pub use names::Names;
pub use print::print_into;
pub use size::{depth, weight};
pub use value::Value;
