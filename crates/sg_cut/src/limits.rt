//! How long a statement and a script may be.

/// The most bytes that a statement may have, with the blanks and comments inside it.
pub const STATEMENT_LIMIT: usize = 65_536;

/// So many bytes of a script are taken at most; one that is played to its end has fewer.
pub const SCRIPT_LIMIT: usize = 268_435_456;
