//! What the calls of a window answer.

/// What a read gave.
#[derive(Clone, Copy, Debug, PartialEq, Eq)]
pub enum Filled {
    /// At least one more byte.
    Got,
    /// No byte: the input ended.
    End,
}

/// What stands first in the bytes that are held. A line is 1 and the line feeds before the statement's first byte.
#[derive(Clone, Copy, Debug, PartialEq, Eq)]
pub enum Cut {
    /// A whole statement, whose first byte stands in this line.
    Statement { line: u64 },
    /// None of the others: more bytes are wanted.
    More,
    /// The input ended, and nothing is held.
    End,
    /// A statement of which as many bytes are held as one may have, none of which ends it.
    TooLong { line: u64 },
    /// The input ended inside a statement.
    Unfinished { line: u64 },
}
