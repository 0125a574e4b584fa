//! Tokens, and why a text has none.

use crate::symbol::Symbol;
use crate::word::Word;
use sg_nat::Bytes;
use std::alloc::{AllocError, AllocFailed};
use thiserror::Error;

/// A token.
#[derive(Drop)]
pub enum Token {
    /// A run of digits, by its value.
    Number(i64),
    /// A run of letters, digits and `_` that begins with no digit and is no reserved word.
    Name(Bytes),
    Word(Word),
    /// A string, by the bytes that it stands for.
    Text(Bytes),
    Symbol(Symbol),
}

/// Why a text gives no tokens.
#[derive(Clone, Copy, Debug, PartialEq, Eq, Error)]
pub enum TokenFault {
    /// The text does not fall into tokens, blanks and comments.
    #[error("the text does not fall into tokens")]
    Syntax,
    /// Memory was wanting.
    #[error(transparent)]
    Memory(AllocError),
}

impl From<AllocError> for TokenFault {
    ghost use Rattle.std.specs.Prelude.{◌≡◌};
    ghost use Rattle.sg_token.specs.declared.token.TokenFault.TheVariants.{Memory};

    ghost from_gives = { λ cause fault. fault ≡ Memory cause };

    fn from(cause: AllocError) -> TokenFault {
        TokenFault::Memory(cause)
    }
}

impl<T: Drop> From<AllocFailed<T>> for TokenFault {
    ghost use Rattle.std.specs.Prelude.{◌≡◌, alloc_error};
    ghost use Rattle.sg_token.specs.declared.token.TokenFault.TheVariants.{Memory};

    ghost from_gives = { λ _ fault. fault ≡ Memory alloc_error };

    fn from(_: AllocFailed<T>) -> TokenFault {
        TokenFault::Memory(AllocError)
    }
}
