//! Why a constructor gives no table.

use std::alloc::AllocError;
use thiserror::Error;

/// Why a constructor gives no table.
#[derive(Debug, Drop, Error)]
pub enum TableFault {
    /// There is no such numerical semigroup.
    #[error("there is no such numerical semigroup")]
    BadArgument,
    /// An argument, or the multiplicity or a minimal generator of the semigroup, is past its limit.
    #[error("a number is past its limit")]
    TooLarge,
    /// Memory was wanting.
    #[error(transparent)]
    Memory(AllocError),
}

impl From<AllocError> for TableFault {
    ghost use Rattle.std.specs.Prelude.{◌≡◌};
    ghost use Rattle.sg_apery.specs.declared.fault.TableFault.{TableFault};

    ghost from_gives = { λ error fault. fault ≡ TableFault.Memory error };

    fn from(error: AllocError) -> TableFault {
        TableFault::Memory(error)
    }
}
