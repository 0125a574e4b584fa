//! The words of the command line, read by `clap` and checked by their plain definition.
//!
//! `specs/Words` says what a list of words says, one word after the other, and `specs/Settings` what that asks for. Both
//! name nothing of `clap`. The code asks `clap` for the words as one simple command, and checks afterwards what `clap`
//! does not: the limits of each number, the texts that are no FILE, and that a drill has no FILE.
//!
//! The layer above uses `read_words`: it gives exactly what `settings_of` says that the words ask for, or Usage where
//! they break a rule.
#![tactic(auto)]

mod arguments;
mod read;
mod settings;
#[cfg(test)]
mod tests;
mod values;

pub use read::read_words;
pub use settings::{Settings, WordsFault};
