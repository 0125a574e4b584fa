//! Why a search ends without its answer.

use std::alloc::AllocError;
use thiserror::Error;

/// Why a search ends without its answer.
#[derive(Debug, Drop, Error)]
pub enum SearchFault {
    /// More vectors are grown than the budget allows.
    #[error("the budget is spent")]
    Budget,
    /// Memory was wanting.
    #[error(transparent)]
    Memory(AllocError),
}

impl From<AllocError> for SearchFault {
    ghost use Rattle.std.specs.Prelude.{◌≡◌};
    ghost use Rattle.sg_atoms.specs.declared.fault.SearchFault.{SearchFault};

    ghost from_gives = { λ error fault. fault ≡ SearchFault.Memory error };

    fn from(error: AllocError) -> SearchFault {
        SearchFault::Memory(error)
    }
}
