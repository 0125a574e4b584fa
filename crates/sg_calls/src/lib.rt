//! The rows of commands and operators, over a store.
//!
//! A family of commands stands in a crate of its own, with its names and its rows; here the families are joined
//! (`specs/Commands`, `specs/Rows`), with the operators (`specs/Operations`). This is the one place that asks the store
//! for what a row wants, and that gives an id to what a row made.
//!
//! The layer above uses: `check_call` refuses an unknown name or a wrong number of arguments; `answer` and `combine`
//! give the value of the row, or the first refusal; known ids of the store stay, and an id in a value is known.
//! `word_named`, `takes` and `perform` are the same in steps, so that a name is looked up once.
#![tactic(auto)]

mod asks;
mod calls;
mod command;
mod delivering;
mod families;
mod forms;
pub mod laws;
mod membership;
mod operations;
mod operator;
mod presentations;
mod tames;

pub use calls::{answer, perform};
pub use command::{Command, Folding, Shared, Word, check_call, takes, word_named};
pub use operations::{calculate, combine, negate};
pub use operator::Operator;
pub use sg_rows::{CallFault, Fault};
