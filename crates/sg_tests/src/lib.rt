//! Tests of what no clause says and no script shows, each over public calls of several crates: it holds no code.
//!
//! They stand here, above the crates that they call, since a crate with tests is proved twice.
#![tactic(auto)]

#[cfg(test)]
mod calls;
#[cfg(test)]
mod degrees;
#[cfg(test)]
mod numbers;
#[cfg(test)]
mod steps;
