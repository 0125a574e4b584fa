//! Why factorizations are not listed.

use std::alloc::AllocError;
use thiserror::Error;

/// Why factorizations are not listed.
#[derive(Debug, Drop, Error)]
pub enum FactorFault {
    /// There are more than the limit.
    #[error("there are too many factorizations")]
    TooMany,
    /// Memory was wanting.
    #[error(transparent)]
    Memory(AllocError),
}

impl From<AllocError> for FactorFault {
    ghost use Rattle.std.specs.Prelude.{◌≡◌};
    ghost use Rattle.sg_factor.specs.declared.fault.FactorFault.{FactorFault};

    ghost from_gives = { λ error fault. fault ≡ FactorFault.Memory error };

    fn from(error: AllocError) -> FactorFault {
        FactorFault::Memory(error)
    }
}
