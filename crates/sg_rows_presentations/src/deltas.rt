//! Deltas of a semigroup, of which there may be none.

ghost use Rattle.std.specs.Prelude.{◌≡◌};
ghost use Rattle.sg_rows_presentations.specs.Rows.{made_of};

use sg_degrees::min_delta_of;
use sg_nat::Nats;
use sg_rows::{CallFault, Made, OfGenerators};
use std::alloc::Global;

/// The delta, or fail where there is none.
pub(crate) fn delta_or_fail(found: Option<u64>) -> Made
    ensures { result ≡ made_of found }
{
    match found {
        Some(delta) => Made::Natural(delta),
        None => Made::Fail,
    }
}

/// The least delta of all elements, and fail for the naturals, where no element has one. It is read off the generators.
#[derive(Clone, Copy)]
pub struct LeastDelta;

impl OfGenerators for LeastDelta {
    ghost use Rattle.sg_rows_presentations.specs.Rows.{least_delta_row};

    ghost says = { λ fact G. least_delta_row G };

    fn tell(self, alloc: Global, generators: &Nats) -> Result<Made, CallFault> {
        let _ = alloc;
        Ok(delta_or_fail(min_delta_of(generators)))
    }
}
