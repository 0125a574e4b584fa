//! The catenary degree of a numerical semigroup.

ghost use Rattle.std.specs.Prelude.{◌≡◌, ◌<◌, length, All, IfOk};
ghost use Rattle.sg_defs.specs.Membership.{IsFactorization, IsNumericalSemigroup};
ghost use Rattle.sg_nonunique.specs.Catenary.{IsCatenary};
ghost use Rattle.sg_nonunique.specs.Classes.{HasTwoClasses};
ghost use Rattle.sg_nonunique.specs.Presentations.{IsCanonical};
ghost use Rattle.sg_betti.specs.Limits.{IsPresentable};
ghost use Rattle.sg_degrees.specs.Lengths.{AreLeastLengths, IsLongestClass};
ghost use Rattle.sg_degrees.specs.Greatest.{IsGreatestOver};

use crate::betti::{greatest, values_of};
use crate::class_lengths::longest_class;
use sg_apery::Table;
use sg_betti::Presentation;
use sg_factor::least_lengths;
use std::alloc::{AllocError, Global};

/// The greatest, over some Betti elements and their classes, of the least length in the class.
fn longest_of(
    alloc: Global,
    t: &Table,
    generators: &[u64],
    values: &[u64],
    least: &[u64],
) -> Result<u64, AllocError>
    requires same { generators.now ≡ t.now }
    requires semigroup { IsNumericalSemigroup t.now }
    requires lengths { AreLeastLengths t.now least.now }
    requires inside { All (λ n. n < length least.now) values.now }
    requires betti { All (λ n. HasTwoClasses (IsFactorization t.now n)) values.now }
    ensures { IfOk result (IsGreatestOver (λ n. IsLongestClass (IsFactorization t.now n)) values.now) }
{
    let mut longest = 0u64;
    for n in values {
        let length = longest_class(alloc, t, generators, *n, least)?;
        longest = longest.max(length);
    }
    Ok(longest)
}

/// The catenary degree: the least number for which any two factorizations of every element are joined by a chain of
/// factorizations with steps no longer than that. It is the greatest, over Betti elements and their classes, of the least
/// length in the class (Geroldinger and Halter-Koch, Non-Unique Factorizations, 2006), and 0 for the naturals. `p` is the
/// canonical presentation of `t`.
pub fn catenary(alloc: Global, t: &Table, p: &Presentation) -> Result<u64, AllocError>
    requires presentable { IsPresentable t.now }
    requires canonical { IsCanonical (◌<◌) (IsFactorization t.now) p.now }
    ensures { IfOk result (IsCatenary (IsFactorization t.now)) }
{
    let generators = t.generators().as_slice();
    let found = values_of(alloc, p)?;
    let values = found.as_slice();
    let least = least_lengths(alloc, t, greatest(values))?;
    longest_of(alloc, t, generators, values, least.as_slice())
}
