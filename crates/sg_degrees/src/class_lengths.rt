//! The least lengths of the classes of an element.

ghost use Rattle.std.specs.Prelude.{◌≡◌, ◌<◌, ◌∷◌, [], length, All, IfOk};
ghost use Rattle.sg_defs.specs.Membership.{IsFactorization, IsNumericalSemigroup};
ghost use Rattle.sg_nonunique.specs.Classes.{HasTwoClasses};
ghost use Rattle.sg_laws_families.specs.PlaceGraph.{IsVertex};
ghost use Rattle.sg_betti.specs.Components.{AreComponents};
ghost use Rattle.sg_degrees.specs.Lengths.{AreLeastLengths, IsLongestClass, IsShortestAt};
ghost use Rattle.sg_degrees.specs.Greatest.{IsGreatestOver};

use sg_apery::Table;
use sg_betti::components;
use sg_nat::Nats;
use std::alloc::{AllocError, Global};

/// The least length of a factorization with a positive place. Without that generator it is one of what is left, whose
/// entry is one more than its least length.
fn shortest_with(generators: &[u64], n: u64, least: &[u64], place: u64) -> u64
    requires lengths { AreLeastLengths generators.now least.now }
    requires inside { n < length least.now }
    requires vertex { IsVertex (IsFactorization generators.now n) place }
    ensures { IsShortestAt (IsFactorization generators.now n) (place ∷ []) result }
{
    least[(n - generators[place as usize]) as usize]
}

/// The least length of a factorization that is positive at some place of a row.
fn shortest(generators: &[u64], n: u64, least: &[u64], row: &[u64]) -> u64
    requires lengths { AreLeastLengths generators.now least.now }
    requires inside { n < length least.now }
    requires some { 0 < length row.now }
    requires vertices { All (IsVertex (IsFactorization generators.now n)) row.now }
    ensures { IsShortestAt (IsFactorization generators.now n) row.now result }
{
    let mut shortest = shortest_with(generators, n, least, row[0]);
    for k in 1..row.len() {
        let length = shortest_with(generators, n, least, row[k]);
        shortest = shortest.min(length);
    }
    shortest
}

/// The greatest of the least lengths at the rows.
fn longest_row(generators: &[u64], n: u64, least: &[u64], rows: &[Nats]) -> u64
    requires lengths { AreLeastLengths generators.now least.now }
    requires inside { n < length least.now }
    requires components { AreComponents (IsFactorization generators.now n) rows.now }
    ensures { IsGreatestOver (IsShortestAt (IsFactorization generators.now n)) rows.now result }
{
    let mut longest = 0u64;
    for row in rows {
        let length = shortest(generators, n, least, row.as_slice());
        longest = longest.max(length);
    }
    longest
}

/// The greatest, over the classes of an element, of the least length in the class.
pub(crate) fn longest_class(
    alloc: Global,
    t: &Table,
    generators: &[u64],
    n: u64,
    least: &[u64],
) -> Result<u64, AllocError>
    requires same { generators.now ≡ t.now }
    requires semigroup { IsNumericalSemigroup t.now }
    requires lengths { AreLeastLengths t.now least.now }
    requires inside { n < length least.now }
    requires betti { HasTwoClasses (IsFactorization t.now n) }
    ensures { IfOk result (IsLongestClass (IsFactorization t.now n)) }
{
    let rows = components(alloc, t, n)?;
    Ok(longest_row(generators, n, least, rows.as_slice()))
}
