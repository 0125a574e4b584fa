//! Laws of what stands first in some bytes: each is the contract of a function without parameters.

ghost use Rattle.std.specs.Prelude.{◌≡◌, ℕ, ◌+◌, ◌<◌, ◌≤◌, Bool, true, false, List, ◌++◌, length, take, drop, slice_range};
ghost use Rattle.sg_cut.specs.declared.limits.TheConstants.{STATEMENT_LIMIT};
ghost use Rattle.sg_cut.specs.declared.outcome.Piece.{Piece};
ghost use Rattle.sg_cut.specs.Cut.{Begins, Cut};
ghost use Rattle.sg_cut.specs.Lines.{count_of_line_feeds, line_of};

/// Any bytes have exactly one outcome, which is no waiting where they are all that there are.
pub fn one_outcome()
    ensures some { (bytes : List ℕ) (whole : Bool) → (piece : Piece) × Cut bytes whole piece }
    ensures unique { (bytes : List ℕ) (whole : Bool) (piece other : Piece) → Cut bytes whole piece → Cut bytes whole other → piece ≡ other }
    ensures not_waiting { (bytes : List ℕ) → ¬ Cut bytes true Piece.Waiting }
{}

/// A statement, and one that is too long, stay so whatever follows, and whether or not there may be more: the text is
/// the same, and what follows it is longer.
pub fn settled()
    ensures statement { (bytes more : List ℕ) (whole later : Bool) (begin end : ℕ) → Cut bytes whole (Piece.Statement begin end) → Cut (bytes ++ more) later (Piece.Statement begin end) }
    ensures text { (bytes more : List ℕ) (whole : Bool) (begin end : ℕ) → Cut bytes whole (Piece.Statement begin end) → slice_range (bytes ++ more) begin end ≡ slice_range bytes begin end }
    ensures rest { (bytes more : List ℕ) (whole : Bool) (begin end : ℕ) → Cut bytes whole (Piece.Statement begin end) → drop end (bytes ++ more) ≡ drop end bytes ++ more }
    ensures too_long { (bytes more : List ℕ) (whole later : Bool) (begin : ℕ) → Cut bytes whole (Piece.TooLong begin) → Cut (bytes ++ more) later (Piece.TooLong begin) }
{}

/// A statement has at least one byte and at most as many as its limit, and lies inside the bytes; so does the front of
/// one that is too long; of one without end there is at least one byte.
pub fn bounds()
    ensures statement { (bytes : List ℕ) (whole : Bool) (begin end : ℕ) → Cut bytes whole (Piece.Statement begin end) → (begin < end) × (end ≤ length bytes) × (end ≤ begin + STATEMENT_LIMIT) }
    ensures too_long { (bytes : List ℕ) (whole : Bool) (begin : ℕ) → Cut bytes whole (Piece.TooLong begin) → begin + STATEMENT_LIMIT ≤ length bytes }
    ensures unfinished { (bytes : List ℕ) (whole : Bool) (begin : ℕ) → Cut bytes whole (Piece.Unfinished begin) → begin < length bytes }
{}

/// Only blanks and comments stand before a statement, one that is too long, and one without end; and all of them do.
pub fn begins()
    ensures statement { (bytes : List ℕ) (whole : Bool) (begin end : ℕ) → Cut bytes whole (Piece.Statement begin end) → Begins bytes begin }
    ensures too_long { (bytes : List ℕ) (whole : Bool) (begin : ℕ) → Cut bytes whole (Piece.TooLong begin) → Begins bytes begin }
    ensures unfinished { (bytes : List ℕ) (whole : Bool) (begin : ℕ) → Cut bytes whole (Piece.Unfinished begin) → Begins bytes begin }
    ensures unique { (bytes : List ℕ) (begin other : ℕ) → Begins bytes begin → Begins bytes other → begin ≡ other }
{}

/// Lines are counted part by part, and what follows a byte does not change its line.
pub fn lines()
    ensures further { (bytes : List ℕ) (place more : ℕ) → line_of bytes (place + more) ≡ line_of bytes place + count_of_line_feeds (take more (drop place bytes)) }
    ensures followed { (bytes more : List ℕ) (place : ℕ) → place ≤ length bytes → line_of (bytes ++ more) place ≡ line_of bytes place }
{}
