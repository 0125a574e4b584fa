//! What a byte begins, outside strings and comments.

ghost use Rattle.std.specs.Prelude.{◌≡◌};
ghost use Rattle.sg_token.specs.FirstByte.{beginning_at};

use sg_cut::{is_blank, is_word_byte};

/// What a byte begins.
#[derive(Clone, Copy, PartialEq, Eq, Debug)]
pub enum Beginning {
    Blank,
    Comment,
    Run,
    Quote,
    Symbol,
}

/// What this byte begins.
#[tactic(auto, unfolding(crate::specs::FirstByte::beginning_at))]
pub fn begun_by(byte: u8) -> Beginning
    ensures { result ≡ beginning_at byte }
{
    if is_blank(byte) {
        Beginning::Blank
    } else if byte == b'#' {
        Beginning::Comment
    } else if is_word_byte(byte) {
        Beginning::Run
    } else if byte == b'"' {
        Beginning::Quote
    } else {
        Beginning::Symbol
    }
}
