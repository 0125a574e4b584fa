//! Why a call gives no ideal.

use std::alloc::AllocError;
use thiserror::Error;

/// Why a call gives no ideal.
#[derive(Debug, Drop, Error)]
pub enum IdealFault {
    /// There are no generators, the factor is 0, or the ambient semigroups differ.
    #[error("there is no such ideal")]
    BadArgument,
    /// A given number, or a minimal generator of the ideal, is past its limit.
    #[error("a number is past its limit")]
    TooLarge,
    /// Memory was wanting.
    #[error(transparent)]
    Memory(AllocError),
}

impl From<AllocError> for IdealFault {
    ghost use Rattle.std.specs.Prelude.{◌≡◌};
    ghost use Rattle.sg_ideal.specs.declared.fault.IdealFault.{IdealFault};

    ghost from_gives = { λ error fault. fault ≡ IdealFault.Memory error };

    fn from(error: AllocError) -> IdealFault {
        IdealFault::Memory(error)
    }
}
