//! The end of a statement.

ghost use Rattle.std.specs.Prelude.{◌≡◌, ℕ, ◌+◌, ◌^◌, ◌<◌, ◌≤◌, MatchOption};
ghost use Rattle.sg_cut.specs.Cut.{Ends, depth_after};

use crate::lexeme::lexeme_len;

/// The block depth behind a lexeme.
fn depth_after(depth: usize, lexeme: &[u8]) -> usize
    requires { depth < 2 ^ 63 }
    ensures after { result ≡ depth_after depth lexeme.now }
    ensures by_one { result ≤ depth + 1 }
{
    match lexeme {
        b"if" | b"for" => depth + 1,
        b"fi" | b"od" => depth.saturating_sub(1),
        _ => depth,
    }
}

/// How many bytes the statement in front has, if its end is there.
pub fn statement_len(bytes: &[u8]) -> Option<usize>
    ensures { MatchOption result ((size : ℕ) → ¬ Ends bytes.now size) (Ends bytes.now) }
{
    let mut place = 0;
    let mut rest = bytes;
    let mut depth = 0;
    while !rest.is_empty() {
        let (lexeme, after) = rest.split_at(lexeme_len(rest));
        place += lexeme.len();
        if depth == 0 && lexeme == b";".as_slice() {
            return Some(place);
        }
        depth = depth_after(depth, lexeme);
        rest = after;
    }
    None
}
