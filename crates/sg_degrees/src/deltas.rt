//! The greatest delta of a numerical semigroup.

ghost use Rattle.std.specs.Prelude.{◌<◌, ◌≤◌, ℕ, All, IfOk};
ghost use Rattle.std.specs.List.Sorted.{IsStrictlyIncreasing};
ghost use Rattle.sg_defs.specs.Membership.{IsFactorization};
ghost use Rattle.sg_nonunique.specs.Deltas.{IsMaxDelta};
ghost use Rattle.sg_nonunique.specs.Presentations.{IsCanonical};
ghost use Rattle.sg_factor.specs.Steps.{IsStepOf};
ghost use Rattle.sg_betti.specs.Limits.{IsPresentable};
ghost use Rattle.sg_degrees.specs.Greatest.{IsGreatestOver};
ghost use Rattle.sg_degrees.specs.Lengths.{IsWidest};

use crate::betti::{greatest, values_of};
use crate::least_delta::min_delta_of;
use sg_apery::Table;
use sg_betti::Presentation;
use sg_factor::LengthTable;
use std::alloc::{AllocError, Global};

/// The greatest difference of neighbours in an ascending list, and 0 where there are no two.
fn widest_step(lengths: &[u64]) -> u64
    requires { IsStrictlyIncreasing lengths.now }
    ensures bound { (d : ℕ) → IsStepOf lengths.now d → d ≤ result }
    ensures reached { 0 < result → IsStepOf lengths.now result }
{
    let mut widest = 0u64;
    for place in 1..lengths.len() {
        widest = widest.max(lengths[place] - lengths[place - 1]);
    }
    widest
}

/// The greatest delta of an element, and 0 where it has none.
fn widest_of(alloc: Global, table: &LengthTable, n: u64) -> Result<u64, AllocError>
    requires { n ≤ table.now.upto }
    ensures { IfOk result (IsWidest (IsFactorization table.now.generators n)) }
{
    let lengths = table.lengths_of(alloc, n)?;
    Ok(widest_step(lengths.as_slice()))
}

/// The greatest delta of some elements, and 0 where they have none.
fn widest_delta(alloc: Global, table: &LengthTable, values: &[u64]) -> Result<u64, AllocError>
    requires { All (λ n. n ≤ table.now.upto) values.now }
    ensures { IfOk result (IsGreatestOver (λ n. IsWidest (IsFactorization table.now.generators n)) values.now) }
{
    let mut widest = 0u64;
    for n in values {
        let delta = widest_of(alloc, table, *n)?;
        widest = widest.max(delta);
    }
    Ok(widest)
}

/// The greatest delta of all elements, and none where no element has one, which is so for the naturals alone. It occurs at
/// a Betti element (Geroldinger and Halter-Koch, Non-Unique Factorizations, 2006). `p` is the canonical presentation of
/// `t`.
pub fn max_delta(alloc: Global, t: &Table, p: &Presentation) -> Result<Option<u64>, AllocError>
    requires presentable { IsPresentable t.now }
    requires canonical { IsCanonical (◌<◌) (IsFactorization t.now) p.now }
    ensures { IfOk result (IsMaxDelta (IsFactorization t.now)) }
{
    let Some(least) = min_delta_of(t.generators()) else {
        return Ok(None);
    };
    let found = values_of(alloc, p)?;
    let values = found.as_slice();
    let table = LengthTable::new(alloc, t, greatest(values))?;
    let widest = widest_delta(alloc, &table, values)?;
    Ok(Some(least.max(widest)))
}
