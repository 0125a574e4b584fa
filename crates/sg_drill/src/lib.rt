//! The drill: a script of so many statements, made from their number alone, and what is told of its output.
//!
//! The statements of a drill are commands on small numerical semigroups, drawn by a linear congruential generator that
//! starts at the number of statements: the same number always makes the same script. Its output is not shown. It goes
//! to a `Tally`, and three lines tell of it: how many statements there were, how many bytes they printed, and the sum of
//! these bytes. Two machines, or two versions, agree on a drill where these lines agree.
//!
//! The layer above uses `drill_text`, which gives exactly the script that `specs/Script` defines; `Tally`, a sink that
//! never fails; and `drill_lines`, which gives exactly the lines of `specs/Summary`. This crate plays nothing.
#![tactic(auto)]

mod script;
mod summary;
mod tally;
#[cfg(test)]
mod tests;

pub use script::drill_text;
pub use summary::drill_lines;
pub use tally::Tally;
