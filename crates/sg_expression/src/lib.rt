//! The expression that tokens begin with: the grammar of expressions, and the reader that keeps to it.
//!
//! Contracts see an expression as the plain tree of `sg_tree`. The layer above uses one contract: `chain` and `closed`
//! give the one tree that stands at the front of the tokens and what follows it, or `Syntax` where none stands there
//! (`Reads`). `specs/Grammar` relates tokens and trees, and `specs/Binding` says how tightly a token binds what stands
//! before it.
#![tactic(auto)]

mod build;
mod expression;
mod front;
mod rank;

pub use expression::{chain, closed};
pub use front::{after_symbol, after_word, name_before, name_before_word};
pub use rank::Rank;
