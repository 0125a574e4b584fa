//! The first lexeme of some bytes: a comment, a string, a word or a single byte.

ghost use Rattle.std.specs.Prelude.{◌≡◌, ◌<◌, ◌≤◌, length, take, drop};
ghost use Rattle.sg_cut.specs.Lexemes.{IsLexeme, IsQuoted};

use crate::bytes::{is_word_byte, line_len, word_len};

/// How many bytes belong to a string, behind its opening `"`.
fn quoted_len(bytes: &[u8]) -> usize
    ensures within { result ≤ length bytes.now }
    ensures quoted { IsQuoted (take result bytes.now) (drop result bytes.now) }
{
    let mut escaped = false;
    for (place, byte) in bytes.iter().enumerate() {
        if *byte == b'\n' {
            return place;
        }
        if !escaped && *byte == b'"' {
            return place + 1;
        }
        escaped = !escaped && *byte == b'\\';
    }
    bytes.len()
}

/// How many bytes the first lexeme has.
pub fn lexeme_len(bytes: &[u8]) -> usize
    requires { 0 < length bytes.now }
    ensures some { 0 < result }
    ensures within { result ≤ length bytes.now }
    ensures first { IsLexeme (take result bytes.now) (drop result bytes.now) }
{
    match bytes[0] {
        b'#' => line_len(bytes),
        b'"' => 1 + quoted_len(&bytes[1..]),
        byte if is_word_byte(byte) => word_len(bytes),
        _ => 1,
    }
}
