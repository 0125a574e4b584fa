//! Cuts a script into statements: blanks and comments are skipped, and a statement ends with its first `;` outside
//! strings, comments and blocks. Nothing here takes memory, and nothing knows what a statement means.
//!
//! Contracts see bytes as a list. `specs/Lexemes` says how bytes fall into comments, strings, words and single bytes,
//! and `specs/Cut` what stands first in a list of bytes. The layer above uses one contract: `cut(held, whole)` is the
//! one outcome `Cut held whole`, and its laws (`laws`): there is exactly one outcome for any bytes, and a statement
//! found, or found too long, stays so whatever follows. The next statement is the first of the bytes behind this one.
#![tactic(auto)]

mod bytes;
mod ignored;
pub mod laws;
mod lexeme;
mod limits;
mod lines;
mod outcome;
mod statement;
#[cfg(test)]
mod tests;

pub use bytes::{is_blank, is_word_byte, line_len, word_len};
pub use limits::{SCRIPT_LIMIT, STATEMENT_LIMIT};
pub use lines::line_feeds;
pub use outcome::{Piece, cut};
