//! The greatest quotient of two lengths.

ghost use Rattle.sg_defs.specs.Membership.{IsNumericalSemigroup};
ghost use Rattle.sg_nonunique.specs.Elasticity.{IsElasticity};
ghost use Rattle.std.specs.List.Sorted.{IsStrictlyIncreasing};

use sg_apery::Table;
use sg_nat::{Nats, Ratio, gcd};

/// The same by the generators in ascending order.
pub fn elasticity_of(generators: &Nats) -> Ratio
    requires semigroup { IsNumericalSemigroup generators.now }
    requires ascending { IsStrictlyIncreasing generators.now }
    ensures { IsElasticity generators.now result.num result.den }
{
    let given = generators.as_slice();
    let first = given[0];
    let last = given[given.len() - 1];
    let common = gcd(first, last);
    Ratio {
        num: last / common,
        den: first / common,
    }
}

/// The elasticity of a numerical semigroup: the greatest quotient of two lengths of one element, in lowest terms. It is
/// the quotient of the greatest and the least generator (Geroldinger and Halter-Koch, Non-Unique Factorizations, 2006).
/// It takes no memory.
pub fn elasticity(t: &Table) -> Ratio
    ensures { IsElasticity t.now result.num result.den }
{
    elasticity_of(t.generators())
}
