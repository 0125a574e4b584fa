//! Answers that are made when they are first asked for, and kept as long as there is room.
//!
//! A question says which lists it may be asked of and what an answer is. What makes the answers is stored beside the fact
//! that each one is an answer, and nothing else of it is used here. Contracts see a memo as the lists that have an answer,
//! the last asked first, its capacity and its two counts.
//!
//! The layer above uses `Memo::get`: the answer is the question's for this list, whatever is kept, and the lists and the
//! counts after it are those of a plain list of the given capacity, of which the least recently asked go (`answered`).
#![tactic(auto)]

mod cache;
mod kept;
mod makes;
mod memo;
mod question;
#[cfg(test)]
mod tests;

pub use kept::Kept;
pub use makes::{Called, Makes};
pub use memo::Memo;
pub use question::Question;
