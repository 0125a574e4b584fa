//! Runs of letters, digits and `_`.

ghost use Rattle.std.specs.Prelude.{◌≡◌};
ghost use Rattle.sg_token.specs.Runs.{token_of_run};
ghost use Rattle.sg_token.specs.Splits.{IsAnswer};

use crate::number::number;
use crate::token::{Token, TokenFault};
use crate::word::word_spelled;
use sg_nat::Bytes;
use std::alloc::Global;

/// The token that a run is.
#[tactic(auto, unfolding(crate::specs::Runs::token_of_run))]
pub fn token_of(alloc: Global, first: u8, run: &[u8]) -> Result<Token, TokenFault>
    ensures { IsAnswer result (token_of_run first run.now) }
{
    if first.is_ascii_digit() {
        return match number(run) {
            Some(value) => Ok(Token::Number(value)),
            None => Err(TokenFault::Syntax),
        };
    }
    match word_spelled(run) {
        Some(word) => Ok(Token::Word(word)),
        None => Ok(Token::Name(Bytes::from_slice(alloc, run)?)),
    }
}
