//! Differences of neighbouring lengths.

ghost use Rattle.std.specs.Prelude.{IfOk};
ghost use Rattle.std.specs.List.Sorted.{IsStrictlyIncreasing};
ghost use Rattle.sg_defs.specs.Listings.{Lists};
ghost use Rattle.sg_factor.specs.Steps.{IsStepOf};

use sg_nat::Nats;
use std::alloc::{AllocError, Global};

/// The differences of neighbours in an ascending list, ascending, each once. Of all lengths of an element these are its
/// deltas (`deltas-from_lengths`).
pub fn delta_of(alloc: Global, lengths: &Nats) -> Result<Nats, AllocError>
    requires { IsStrictlyIncreasing lengths.now }
    ensures { IfOk result (λ deltas. Lists (IsStepOf lengths.now) deltas) }
{
    let lengths = lengths.as_slice();
    let mut steps = Vec::new(alloc);
    for place in 1..lengths.len() {
        steps.push(lengths[place] - lengths[place - 1])?;
    }
    steps.sort_unstable();
    steps.dedup();
    Nats::from_slice(alloc, &steps)
}
