//! Vectors of naturals, place by place.

ghost use Rattle.std.specs.Prelude.{◌≡◌, ◌+◌, ◌<◌, ◌≤◌, ◌^◌, ◌↔◌, length, sum, IsTrue, IfOk, IfSome, IsNone};
ghost use Rattle.std.specs.Ordering.{MatchOrdering};
ghost use Rattle.sg_defs.specs.Vectors.{meet, minus, distance, IsBelow, IsLexBelow};

use crate::list::Nats;
use std::alloc::{AllocError, Global};
use std::cmp::Ordering;

/// Whether each place of `a` is at least that of `b`, where both have as many places. It takes no memory.
pub fn dominates(a: &[u64], b: &[u64]) -> bool
    requires { length a.now ≡ length b.now }
    ensures { IsTrue result ↔ IsBelow b.now a.now }
{
    a.iter().zip(b).all(|(x, y)| *x >= *y)
}

/// Which vector is less lexicographically: the one with the lesser number at the first place where they differ. Both have
/// as many places. It takes no memory.
pub fn lex_cmp(a: &[u64], b: &[u64]) -> Ordering
    requires { length a.now ≡ length b.now }
    ensures { MatchOrdering result (IsLexBelow a.now b.now) (a.now ≡ b.now) (IsLexBelow b.now a.now) }
{
    a.cmp(b)
}

/// The lesser number at each place. Both vectors have as many places.
pub fn meet(alloc: Global, a: &[u64], b: &[u64]) -> Result<Nats, AllocError>
    requires { length a.now ≡ length b.now }
    ensures { IfOk result (λ least. least ≡ meet a.now b.now) }
{
    let mut least = Nats::new(alloc);
    for (x, y) in a.iter().zip(b) {
        least.push((*x).min(*y))?;
    }
    Ok(least)
}

/// The sum of the places. None exactly where it is 2^64 or more. It takes no memory.
pub fn length(a: &[u64]) -> Option<u64>
    ensures value { IfSome result (λ total. total ≡ sum a.now) }
    ensures none { IsNone result ↔ (2 ^ 64 ≤ sum a.now) }
{
    let mut total = 0u64;
    for x in a {
        total = total.checked_add(*x)?;
    }
    Some(total)
}

/// By how much the places of `a` are above those of `b`, all together.
fn excess(a: &[u64], b: &[u64]) -> u64
    requires places { length a.now ≡ length b.now }
    requires small { sum a.now < 2 ^ 64 }
    ensures { result ≡ sum (minus a.now (meet a.now b.now)) }
{
    let mut total = 0;
    for (x, y) in a.iter().zip(b) {
        total += x.saturating_sub(*y);
    }
    total
}

/// With the common part taken away from both vectors, the greater of the two lengths. Both have as many places, and sums
/// below 2^64. It takes no memory.
pub fn distance(a: &[u64], b: &[u64]) -> u64
    requires places { length a.now ≡ length b.now }
    requires first { sum a.now < 2 ^ 64 }
    requires second { sum b.now < 2 ^ 64 }
    ensures { result ≡ distance a.now b.now }
{
    excess(a, b).max(excess(b, a))
}
