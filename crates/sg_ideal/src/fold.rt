//! Sums of members of one ideal.

ghost use Rattle.std.specs.Prelude.{◌≡◌, ◌*◌, ◌<◌, ◌↔◌, ℤ, pos, length, slice_index, slice_index_or, IfOk, IfErr, OnOk, MatchOption};
ghost use Rattle.sg_defs.specs.Ideals.{IsInMultiple};
ghost use Rattle.sg_ideal.specs.Classes.{IsFrom, IsIdealTable};
ghost use Rattle.sg_ideal.specs.Faults.{IsMultipleRefused};
ghost use Rattle.sg_ideal.specs.Value.{IsIdealOf, IsIn, times};
ghost use Rattle.sg_lawful.specs.Generators.{IsLarge, IsSmall};

use crate::classes::{reach, spread};
use crate::fault::IdealFault;
use crate::ideal::Ideal;
use crate::made::from_table;
use sg_lawful::IDEAL_GENERATOR_LIMIT;
use std::alloc::{AllocError, Global};

/// `k` times a number, or None where that is past the limit.
fn product(k: u64, x: i64) -> Option<i64>
    requires { IsSmall x }
    ensures { MatchOption result (IsLarge (times k x)) (λ y. (y ≡ times k x) × IsSmall y) }
{
    let Some(size) = k.checked_mul(x.unsigned_abs()) else {
        return None;
    };
    if size >= IDEAL_GENERATOR_LIMIT as u64 {
        return None;
    }
    if x < 0 {
        return Some(-(size as i64));
    }
    Some(size as i64)
}

/// The sums of `k` members, from the least of them on, by one more member at a time. Once one more adds none they stay
/// the same.
fn steps(alloc: Global, k: u64, a: &Ideal) -> Result<Vec<u64>, AllocError>
    requires { 0 < k }
    ensures table { IfOk result (λ list. IsIdealTable a.now.ambient list.items) }
    ensures same { IfOk result (λ list. (x : ℤ) → IsInMultiple k (IsIn a.now) x ↔ IsFrom (times k (slice_index_or a.now.generators 0 (pos 0))) list.items x) }
{
    let mut list = Vec::from_slice(alloc, a.entries())?;
    for _folds in 1..k {
        let next = spread(alloc, &list, a.least(), a.generators())?;
        if next.as_slice() == list.as_slice() {
            return Ok(list);
        }
        list = next;
    }
    Ok(list)
}

/// The same where `k` is past the multiplicity for each generator: a distance from the least member that is added as
/// often as the multiplicity says leads to what a member of the semigroup leads to, so each need be added no oftener,
/// and so often may all of them.
fn gather(alloc: Global, k: u64, a: &Ideal) -> Result<Vec<u64>, AllocError>
    requires { length a.now.generators * slice_index a.now.ambient 0 < k }
    ensures table { IfOk result (λ list. IsIdealTable a.now.ambient list.items) }
    ensures same { IfOk result (λ list. (x : ℤ) → IsInMultiple k (IsIn a.now) x ↔ IsFrom (times k (slice_index_or a.now.generators 0 (pos 0))) list.items x) }
{
    let mut list = Vec::from_slice(alloc, a.entries())?;
    let count = list.len() as u64;
    for generator in a.generators() {
        list = reach(alloc, &list, (*generator - a.least()) as u64, count)?;
    }
    Ok(list)
}

/// The sums of `k` members, from the least of them on. Of two generators only the second has a distance to add.
fn fold(alloc: Global, k: u64, a: &Ideal) -> Result<Vec<u64>, AllocError>
    requires { 0 < k }
    ensures table { IfOk result (λ list. IsIdealTable a.now.ambient list.items) }
    ensures same { IfOk result (λ list. (x : ℤ) → IsInMultiple k (IsIn a.now) x ↔ IsFrom (times k (slice_index_or a.now.generators 0 (pos 0))) list.items x) }
{
    let entries = a.entries();
    let generators = a.generators();
    if k / entries.len() as u64 > generators.len() as u64 {
        return gather(alloc, k, a);
    }
    if generators.len() == 2 {
        return reach(
            alloc,
            entries,
            (generators[1] - generators[0]) as u64,
            k - 1,
        );
    }
    steps(alloc, k, a)
}

/// The sums of `k` members.
///
/// BadArgument where `k` is 0; then TooLarge where a minimal generator's absolute value is `IDEAL_GENERATOR_LIMIT` or
/// more.
pub fn multiple(alloc: Global, k: u64, a: &Ideal) -> Result<Ideal, IdealFault>
    ensures made { IfOk result (IsIdealOf a.now.ambient (IsInMultiple k (IsIn a.now))) }
    ensures positive { OnOk result (0 < k) }
    ensures refused { IfErr result (IsMultipleRefused k a.now.ambient (IsInMultiple k (IsIn a.now))) }
{
    if k == 0 {
        return Err(IdealFault::BadArgument);
    }
    let Some(base) = product(k, a.least()) else {
        return Err(IdealFault::TooLarge);
    };
    let entries = fold(alloc, k, a)?;
    from_table(alloc, a.ambient(), base, entries)
}
