//! How deeply brackets and blocks nest.

ghost use Rattle.std.specs.Prelude.{◌≡◌, ◌↔◌, IsTrue};
ghost use Rattle.sg_script.specs.Depth.{deepens, rises, IsDeep};

use crate::limits::NESTING_LIMIT;
use sg_token::{Symbol, Token, Word};

/// Whether a token opens a bracket or begins a block.
fn is_deepening(token: &Token) -> bool
    ensures { result ≡ deepens token.now }
{
    match token {
        Token::Word(Word::If | Word::For) => true,
        Token::Symbol(Symbol::OpenParenthesis | Symbol::OpenBracket) => true,
        _ => false,
    }
}

/// Whether a token closes a bracket or ends a block.
fn is_rising(token: &Token) -> bool
    ensures { result ≡ rises token.now }
{
    match token {
        Token::Word(Word::Fi | Word::Od) => true,
        Token::Symbol(Symbol::CloseParenthesis | Symbol::CloseBracket) => true,
        _ => false,
    }
}

/// Whether at some token more brackets and blocks are open than may be.
pub fn is_too_deep(tokens: &[Token]) -> bool
    ensures { IsTrue result ↔ IsDeep tokens.now }
{
    let mut opened: u64 = 0;
    let mut closed: u64 = 0;
    for token in tokens {
        if is_deepening(token) {
            opened += 1;
        }
        if is_rising(token) {
            closed += 1;
        }
        if opened.saturating_sub(closed) > NESTING_LIMIT {
            return true;
        }
    }
    false
}
