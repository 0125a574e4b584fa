//! Sums, differences and intersections.

ghost use Rattle.std.specs.Prelude.{◌≡◌, ◌↔◌, ◌⊎◌, ℤ, pos, ◌≤ℤ◌, slice_index_or, IfOk, IfErr, OnOk, IsTrue};
ghost use Rattle.sg_defs.specs.Ideals.{IsInDifference, IsInSum};
ghost use Rattle.sg_ideal.specs.Classes.{IsClosedTable, IsFrom};
ghost use Rattle.sg_ideal.specs.Faults.{IsPairRefused};
ghost use Rattle.sg_ideal.specs.Value.{IsIdealOf, IsIn, IsInBoth};
ghost use Rattle.sg_lawful.specs.Generators.{IsSmall};

use crate::classes::{narrow, rebased, reduce, spread};
use crate::fault::IdealFault;
use crate::ideal::Ideal;
use crate::made::{from_classes, from_table};
use std::alloc::{AllocError, Global};

/// Whether two ideals have the same ambient semigroup.
fn is_paired(a: &Ideal, b: &Ideal) -> bool
    ensures { IsTrue result ↔ (a.now.ambient ≡ b.now.ambient) }
{
    a.ambient() == b.ambient()
}

/// The sums of a member of each.
///
/// BadArgument where the ambient semigroups differ; then TooLarge where a minimal generator's absolute value is
/// `IDEAL_GENERATOR_LIMIT` or more.
pub fn sum(alloc: Global, a: &Ideal, b: &Ideal) -> Result<Ideal, IdealFault>
    ensures made { IfOk result (IsIdealOf a.now.ambient (IsInSum (IsIn a.now) (IsIn b.now))) }
    ensures paired { OnOk result (a.now.ambient ≡ b.now.ambient) }
    ensures refused { IfErr result (IsPairRefused a.now b.now (IsInSum (IsIn a.now) (IsIn b.now))) }
{
    if !is_paired(a, b) {
        return Err(IdealFault::BadArgument);
    }
    let entries = spread(alloc, a.entries(), b.least(), b.generators())?;
    from_table(alloc, a.ambient(), a.least() + b.least(), entries)
}

/// The greater of two integers.
fn greater(x: i64, y: i64) -> i64
    ensures first { x ≤ℤ result }
    ensures second { y ≤ℤ result }
    ensures one { (result ≡ x) ⊎ (result ≡ y) }
{
    if x < y { y } else { x }
}

/// What is in both, from `base` on, which no member of both lies below.
fn common(alloc: Global, a: &Ideal, b: &Ideal, base: i64) -> Result<Vec<u64>, AllocError>
    requires paired { a.now.ambient ≡ b.now.ambient }
    requires first { slice_index_or a.now.generators 0 (pos 0) ≤ℤ base }
    requires second { slice_index_or b.now.generators 0 (pos 0) ≤ℤ base }
    requires small { IsSmall base }
    requires one { (base ≡ slice_index_or a.now.generators 0 (pos 0)) ⊎ (base ≡ slice_index_or b.now.generators 0 (pos 0)) }
    ensures table { IfOk result (λ list. IsClosedTable a.now.ambient list.items) }
    ensures same { IfOk result (λ list. (x : ℤ) → IsInBoth (IsIn a.now) (IsIn b.now) x ↔ IsFrom base list.items x) }
{
    let mut entries = rebased(alloc, a.entries(), (base - a.least()) as u64)?;
    narrow(&mut entries, b.entries(), (base - b.least()) as u64);
    Ok(entries)
}

/// The integers that are members of both.
///
/// BadArgument where the ambient semigroups differ; then TooLarge where a minimal generator's absolute value is
/// `IDEAL_GENERATOR_LIMIT` or more.
pub fn intersect(alloc: Global, a: &Ideal, b: &Ideal) -> Result<Ideal, IdealFault>
    ensures made { IfOk result (IsIdealOf a.now.ambient (IsInBoth (IsIn a.now) (IsIn b.now))) }
    ensures paired { OnOk result (a.now.ambient ≡ b.now.ambient) }
    ensures refused { IfErr result (IsPairRefused a.now b.now (IsInBoth (IsIn a.now) (IsIn b.now))) }
{
    if !is_paired(a, b) {
        return Err(IdealFault::BadArgument);
    }
    let base = greater(a.least(), b.least());
    let entries = common(alloc, a, b, base)?;
    from_classes(alloc, a.ambient(), base, &entries)
}

/// The integers that move each member of the second into the first.
///
/// BadArgument where the ambient semigroups differ; then TooLarge where a minimal generator's absolute value is
/// `IDEAL_GENERATOR_LIMIT` or more.
pub fn subtract(alloc: Global, a: &Ideal, b: &Ideal) -> Result<Ideal, IdealFault>
    ensures made { IfOk result (IsIdealOf a.now.ambient (IsInDifference (IsIn a.now) (IsIn b.now))) }
    ensures paired { OnOk result (a.now.ambient ≡ b.now.ambient) }
    ensures refused { IfErr result (IsPairRefused a.now b.now (IsInDifference (IsIn a.now) (IsIn b.now))) }
{
    if !is_paired(a, b) {
        return Err(IdealFault::BadArgument);
    }
    let entries = reduce(alloc, a.entries(), b.least(), b.generators())?;
    from_classes(alloc, a.ambient(), a.least() - b.least(), &entries)
}
