//! Strings.

ghost use Rattle.std.specs.Prelude.{◌≡◌, ◌≢◌, ◌≤◌, ◌∷◌, length, IfOk, MatchOption, None};
ghost use Rattle.sg_token.specs.Splits.{IsSplit};
ghost use Rattle.sg_token.specs.Strings.{escaped, string_at, GoesOn};

use crate::token::TokenFault;
use sg_nat::Bytes;
use std::alloc::Global;

/// The byte that a letter stands for behind a backslash.
fn unescaped(letter: u8) -> Option<u8>
    ensures { result ≡ escaped letter }
{
    match letter {
        b'n' => Some(b'\n'),
        b't' => Some(b'\t'),
        b'"' => Some(b'"'),
        b'\\' => Some(b'\\'),
        _ => None,
    }
}

/// The byte that a string goes on with, which is no quote, and the text after that.
fn string_byte(first: u8, after: &[u8]) -> Option<(u8, &[u8])>
    requires { first ≢ 34 }
    ensures { MatchOption result (string_at (first ∷ after.now) ≡ None) (λ p. GoesOn (first ∷ after.now) p.0 p.1.now) }
{
    if first == b'\\' {
        let (letter, rest) = after.split_first()?;
        return Some((unescaped(*letter)?, rest));
    }
    if first >= 32 && first <= 126 {
        Some((first, after))
    } else {
        None
    }
}

/// The bytes of a string, from behind the quote that begins it, and the text after the quote that ends it.
pub fn take_string(alloc: Global, text: &[u8]) -> Result<(Bytes, &[u8]), TokenFault>
    ensures strings { IsSplit result (string_at text.now) }
    ensures shorter { IfOk result (λ found. length found.1.now ≤ length text.now) }
{
    let mut bytes = Bytes::new(alloc);
    let mut rest = text;
    while let Some((first, after)) = rest.split_first() {
        if *first == b'"' {
            return Ok((bytes, after));
        }
        let Some((byte, after)) = string_byte(*first, after) else {
            return Err(TokenFault::Syntax);
        };
        bytes.push(byte)?;
        rest = after;
    }
    Err(TokenFault::Syntax)
}
