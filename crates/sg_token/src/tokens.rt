//! The tokens of a text.

ghost use Rattle.std.specs.Prelude.{◌≡◌, ◌∷◌, List, IfOk, IsErrOf};
ghost use Rattle.sg_token.specs.Runs.{run_at};
ghost use Rattle.sg_token.specs.Splits.{IsSplit};
ghost use Rattle.sg_token.specs.Steps.{Takes};
ghost use Rattle.sg_token.specs.declared.token.Token.{Token};
ghost use Rattle.sg_token.specs.Tokens.{FallsInto, after_line};

use crate::beginning::{Beginning, begun_by};
use crate::quoted::take_string;
use crate::run::token_of;
use crate::symbol::longest_symbol;
use crate::token::{Token, TokenFault};
use sg_cut::{line_len, word_len};
use std::alloc::Global;

/// The text from its first line feed on.
fn after_comment(text: &[u8]) -> &[u8]
    ensures { result.now ≡ after_line text.now }
{
    text.split_at(line_len(text)).1
}

/// Takes the run that the text begins with.
fn take_run(alloc: Global, first: u8, text: &[u8]) -> Result<(Token, &[u8]), TokenFault>
    ensures { IsSplit result (run_at first text.now) }
{
    let (run, rest) = text.split_at(word_len(text));
    Ok((token_of(alloc, first, run)?, rest))
}

/// Takes what the text begins with, a byte and the text after it: a token, or none for a blank or a comment.
fn take_first<'a>(
    alloc: Global,
    first: u8,
    text: &'a [u8],
    after: &'a [u8],
) -> Result<(Option<Token>, &'a [u8]), TokenFault>
    requires { text.now ≡ first ∷ after.now }
    ensures { Takes text.now result }
{
    match begun_by(first) {
        Beginning::Blank => Ok((None, after)),
        Beginning::Comment => Ok((None, after_comment(after))),
        Beginning::Run => {
            let (token, rest) = take_run(alloc, first, text)?;
            Ok((Some(token), rest))
        }
        Beginning::Quote => {
            let (bytes, rest) = take_string(alloc, after)?;
            Ok((Some(Token::Text(bytes)), rest))
        }
        Beginning::Symbol => {
            let Some(symbol) = longest_symbol(text) else {
                return Err(TokenFault::Syntax);
            };
            let (_, rest) = text.split_at(symbol.spelling().len());
            Ok((Some(Token::Symbol(symbol)), rest))
        }
    }
}

/// The tokens that the text falls into, beside its blanks and comments.
///
/// `Syntax` where it falls into no tokens; `Memory` where memory is wanting.
pub fn read_tokens(alloc: Global, text: &[u8]) -> Result<Vec<Token>, TokenFault>
    ensures tokens { IfOk result (λ found. FallsInto text.now found.items) }
    ensures syntax { IsErrOf result TokenFault.Syntax → (others : List Token) → FallsInto text.now others → ⊥ }
{
    let mut found = Vec::new(alloc);
    let mut rest = text;
    while let Some((first, after)) = rest.split_first() {
        let (token, after) = take_first(alloc, *first, rest, after)?;
        if let Some(token) = token {
            found.push(token)?;
        }
        rest = after;
    }
    Ok(found)
}
