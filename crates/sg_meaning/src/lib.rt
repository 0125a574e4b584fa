//! What expressions and statements mean.
//!
//! The meaning of each is a process (`specs/Process`, `Expressions`, `Statements`), which runs over variables with plain
//! values and asks queries (`specs/Queries`): what a command or an operator answers, and the like. No store and no machine
//! is mentioned. `laws` says that each has at most one outcome, and over lawful variables one.
//!
//! The layer above uses the definitions and the laws. What a name stands for is in the table of `sg_calls`.
#![tactic(auto)]

pub mod laws;
