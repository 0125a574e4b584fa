//! The least delta of a numerical semigroup.

ghost use Rattle.std.specs.Prelude.{◌<◌, ◌≤◌, ℕ, length, slice_index};
ghost use Rattle.std.specs.List.Sorted.{IsStrictlyIncreasing};
ghost use Rattle.sg_defs.specs.Membership.{IsFactorization, IsNumericalSemigroup};
ghost use Rattle.sg_nonunique.specs.Deltas.{IsMinDelta};
ghost use Rattle.sg_laws_families.specs.Bounds.{IsDifferenceGcd};

use sg_apery::Table;
use sg_nat::{Nats, gcd};

/// The greatest common divisor of the differences of the generators and the first one.
fn difference_gcd(generators: &[u64]) -> u64
    requires not_empty { 0 < length generators.now }
    requires least { (k : ℕ) → k < length generators.now → slice_index generators.now 0 ≤ slice_index generators.now k }
    ensures { IsDifferenceGcd generators.now result }
{
    let mut common = 0u64;
    for place in 1..generators.len() {
        common = gcd(common, generators[place] - generators[0]);
    }
    common
}

/// The least delta of all elements, by the generators in ascending order, and none where no element has one: the greatest
/// common divisor of their differences (Geroldinger and Halter-Koch, Non-Unique Factorizations, 2006), and none where that
/// is 0. It takes no memory.
pub fn min_delta_of(generators: &Nats) -> Option<u64>
    requires semigroup { IsNumericalSemigroup generators.now }
    requires ascending { IsStrictlyIncreasing generators.now }
    ensures { IsMinDelta (IsFactorization generators.now) result }
{
    let common = difference_gcd(generators.as_slice());
    if common == 0 {
        return None;
    }
    Some(common)
}

/// The same of a table: none for the naturals alone.
pub fn min_delta(t: &Table) -> Option<u64>
    ensures { IsMinDelta (IsFactorization t.now) result }
{
    min_delta_of(t.generators())
}
