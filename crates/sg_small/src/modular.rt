//! The small elements of a modular or proportionally modular semigroup.

ghost use Rattle.std.specs.Prelude.{◌<◌, ◌≤◌, ◌↔◌, ℕ, IfOk, IsTrue};
ghost use Rattle.sg_small.specs.Modular.{IsProportional};
ghost use Rattle.sg_small.specs.Sets.{IsInSmall};
ghost use Rattle.sg_small.specs.Small.{AreSmallElements};

use sg_classes::MODULUS_LIMIT;
use std::alloc::{AllocError, Global};

/// Whether `x` is a member, for `a` below `b`. A product of `c` that does not fit exceeds every remainder.
fn is_proportional(a: u64, b: u64, c: u64, x: u64) -> bool
    requires reduced { a < b }
    requires small { b ≤ MODULUS_LIMIT }
    requires number { x ≤ b }
    ensures { IsTrue result ↔ IsProportional a b c x }
{
    a * x % b <= c.saturating_mul(x)
}

/// The members up to the modulus, after which every number is one.
pub fn members_up_to(alloc: Global, a: u64, b: u64, c: u64) -> Result<Vec<u64>, AllocError>
    requires modulus { 0 < b }
    requires factor { 0 < c }
    requires small { b ≤ MODULUS_LIMIT }
    ensures list { IfOk result (λ list. AreSmallElements list.items) }
    ensures same { IfOk result (λ list. (n : ℕ) → IsProportional a b c n ↔ IsInSmall list.items n) }
{
    let reduced = a % b;
    let mut list = Vec::new(alloc);
    for x in 0..b + 1 {
        if is_proportional(reduced, b, c, x) {
            list.push(x)?;
        }
    }
    Ok(list)
}
