//! Why a text gives no tree.

use sg_token::TokenFault;
use std::alloc::AllocError;
use thiserror::Error;

/// Why a text gives no tree.
#[derive(Clone, Copy, Debug, PartialEq, Eq, Error)]
pub enum ParseFault {
    /// The text does not fall into tokens, or its tokens are no statement.
    #[error("the text is no statement")]
    Syntax,
    /// More brackets and blocks are open at some token than may be.
    #[error("brackets and blocks nest too deeply")]
    Depth,
    /// Memory was wanting.
    #[error(transparent)]
    Memory(AllocError),
}

impl From<TokenFault> for ParseFault {
    ghost use Rattle.sg_script.specs.Faults.{IsSameFault};

    ghost from_gives = { λ cause fault. IsSameFault cause fault };

    fn from(cause: TokenFault) -> ParseFault {
        match cause {
            TokenFault::Syntax => ParseFault::Syntax,
            TokenFault::Memory(cause) => ParseFault::Memory(cause),
        }
    }
}
