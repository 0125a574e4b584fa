//! What stands first in the bytes that are held.

ghost use Rattle.std.specs.Prelude.{◌≡◌};
ghost use Rattle.sg_cut.specs.declared.outcome.Piece.{Piece};
ghost use Rattle.sg_cut.specs.Cut.{Cut};

use crate::ignored::ignored_len;
use crate::limits::STATEMENT_LIMIT;
use crate::statement::statement_len;

/// What stands first in some bytes of a script. Places count from the first of these bytes.
#[derive(Clone, Copy, Debug, PartialEq, Eq)]
pub enum Piece {
    /// A whole statement, with its `;` as the last byte before `end`.
    Statement { begin: usize, end: usize },
    /// A statement of which as many bytes are there as one may have, none of which ends it.
    TooLong { begin: usize },
    /// A statement without end, of which fewer bytes are there than one may have, and the script ends there.
    Unfinished { begin: usize },
    /// Blanks and comments alone, and the script ends there.
    End,
    /// None of these: more bytes may make one of them.
    Waiting,
}

/// What stands first in `held`, which is all that is left of the script where `whole` holds. It takes no memory.
///
/// One pass over the blanks and comments in front and over as many bytes at most as a statement may have.
pub fn cut(held: &[u8], whole: bool) -> Piece
    ensures outcome { Cut held.now whole result }
    ensures only { (other : Piece) → Cut held.now whole other → other ≡ result }
{
    let begin = ignored_len(held);
    let (_, rest) = held.split_at(begin);
    if rest.is_empty() {
        return if whole { Piece::End } else { Piece::Waiting };
    }
    let (window, _) = rest.split_at(rest.len().min(STATEMENT_LIMIT));
    match statement_len(window) {
        Some(size) => Piece::Statement {
            begin,
            end: begin + size,
        },
        None if window.len() == STATEMENT_LIMIT => Piece::TooLong { begin },
        None if whole => Piece::Unfinished { begin },
        None => Piece::Waiting,
    }
}
