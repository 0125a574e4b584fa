//! Tokens of the script language: the text of a statement as numbers, names, reserved words, strings and symbols.
//!
//! `read_tokens` gives the one list of tokens that the text falls into (`FallsInto`), beside its blanks and comments, or
//! `Syntax` where there is none. It knows no grammar: any token may follow any other.
#![tactic(auto)]

mod beginning;
pub mod laws;
mod number;
mod quoted;
mod run;
mod symbol;
mod token;
mod tokens;
mod word;

pub use symbol::Symbol;
pub use token::{Token, TokenFault};
pub use tokens::read_tokens;
pub use word::Word;
