//! The program as one call, from the words of its command line and the bytes of its source to its ending.
//!
//! `run` is the headline: all that it wrote is what the definitions say of its whole script, over the whole infinite
//! semigroup, and each ending has its cause. Contracts see a run as the record that it wrote, bytes for `out` and for
//! `err`. `specs/Settled` has what a whole script comes to, by the play of `sg_play`; `specs/Ends` has the condition of
//! each cause, the full record of each, and what a run wrote that a sink or want of memory stopped; `specs/Statistics` the
//! lines of `--stats`. The input is read in one pass, through the window of `sg_window`: `specs/Playing` says how far a
//! play has come.
#![tactic(auto)]

mod drill;
mod ended;
mod ending;
pub mod laws;
mod passed;
mod plan;
mod play;
mod program;
mod report;
mod settle;
#[cfg(test)]
mod tests;

pub use ending::{Cause, Ending};
pub use program::run;
pub use sg_calls::Fault;
