//! Blanks and comments before a statement.

ghost use Rattle.std.specs.Prelude.{◌≡◌, ◌||◌, ◌==◌};
ghost use Rattle.sg_cut.specs.Cut.{Begins, starts_ignored};

use crate::bytes::is_blank;
use crate::lexeme::lexeme_len;

/// Whether the first byte is a blank or begins a comment.
fn starts_ignored(bytes: &[u8]) -> bool
    ensures { result ≡ starts_ignored bytes.now }
{
    match bytes {
        [first, ..] => is_blank(*first) || *first == b'#',
        [] => false,
    }
}

/// How many bytes of blanks and comments stand in front.
pub fn ignored_len(bytes: &[u8]) -> usize
    ensures { Begins bytes.now result }
{
    let mut place = 0;
    let mut rest = bytes;
    while starts_ignored(rest) {
        let size = lexeme_len(rest);
        let (_, after) = rest.split_at(size);
        place += size;
        rest = after;
    }
    place
}
