//! Parts of a list of generators.

ghost use Rattle.std.specs.Prelude.{◌≡◌, ◌<◌, ◌≤◌, ◌∷◌, ◌↔◌, ℕ, All, Contains, IfOk, IsTrue, length};
ghost use Rattle.std.specs.Int.{◌∣◌};
ghost use Rattle.std.specs.List.Sorted.{IsStrictlyIncreasing};
ghost use Rattle.itertools.specs.Pool.{powerset_can, powerset_left, subsets};
ghost use Rattle.sg_defs.specs.Vectors.{scale};
ghost use Rattle.sg_glue.specs.Gluings.{IsGcdOf};

use itertools::{Itertools, Powerset};
use sg_nat::{Nats, gcd};
use std::alloc::{AllocError, Global};

/// The greatest common divisor of the entries. It takes no memory.
pub fn common_divisor(entries: &[u64]) -> u64
    ensures { IsGcdOf entries.now result }
{
    let mut divisor = 0;
    for entry in entries {
        divisor = gcd(divisor, *entry);
    }
    divisor
}

/// The entries divided by a number that divides each.
pub fn divided(alloc: Global, entries: &[u64], divisor: u64) -> Result<Nats, AllocError>
    requires positive { 0 < divisor }
    requires divides { All (λ entry. divisor ∣ entry) entries.now }
    ensures { IfOk result (λ parts. scale divisor parts ≡ entries.now) }
{
    let mut parts = Nats::new(alloc);
    for entry in entries {
        parts.push(*entry / divisor)?;
    }
    Ok(parts)
}

/// A number and the entries after it.
pub fn with_first(alloc: Global, first: u64, entries: &[u64]) -> Result<Nats, AllocError>
    ensures { IfOk result (λ list. list ≡ first ∷ entries.now) }
{
    let mut list = Nats::new(alloc);
    list.push(first)?;
    list.extend_from_slice(entries)?;
    Ok(list)
}

/// The parts of a list, the shortest first.
pub fn parts_of(alloc: Global, entries: &[u64]) -> Result<Powerset<u64, Global>, AllocError>
    ensures can { IfOk result powerset_can }
    ensures pool { IfOk result (λ parts. parts.combinations.pool.items ≡ entries.now) }
    ensures places { IfOk result (λ parts. powerset_left parts ≡ subsets (length entries.now)) }
{
    entries.iter().copied().powerset(alloc)
}

/// Whether a list has a number.
fn is_among(entries: &[u64], n: u64) -> bool
    ensures { IsTrue result ↔ Contains entries.now n }
{
    entries.contains(&n)
}

/// The ascending entries that are not among the taken ones.
pub fn others(alloc: Global, entries: &[u64], taken: &[u64]) -> Result<Nats, AllocError>
    requires { IsStrictlyIncreasing entries.now }
    ensures ascending { IfOk result (λ rest. IsStrictlyIncreasing rest) }
    ensures exactly { IfOk result (λ rest. (g : ℕ) → Contains rest g ↔ (Contains entries.now g × (Contains taken.now g → ⊥))) }
{
    let mut rest = Nats::new(alloc);
    for entry in entries {
        if !is_among(taken, *entry) {
            rest.push(*entry)?;
        }
    }
    Ok(rest)
}
