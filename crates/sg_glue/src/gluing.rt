//! The gluings of a numerical semigroup.

ghost use Rattle.std.specs.Prelude.{◌*◌, ◌<◌, ◌≤◌, ◌^◌, All, IfOk, IsTrue, ◌↔◌, OnOk};
ghost use Rattle.std.specs.Int.{◌∣◌};
ghost use Rattle.std.specs.List.Sorted.{IsStrictlyIncreasing};
ghost use Rattle.sg_defs.specs.Membership.{IsMember, IsNumericalSemigroup};
ghost use Rattle.sg_glue.specs.Gluings.{AddsGluing, AreGluings, IsChosen, IsMet, IsSide};
ghost use Rattle.sg_glue.specs.Limits.{IsGluable};

use crate::parts::{common_divisor, divided, others, parts_of, with_first};
use crate::split::{Split, Splits};
use crate::sums::is_sum;
use sg_apery::Table;
use sg_nat::Nats;
use std::alloc::{AllocError, Global};

/// Whether a multiple of the divisor of one part is a sum of that part's entries.
fn is_reached(alloc: Global, part: &Nats, divisor: u64, times: u64) -> Result<bool, AllocError>
    requires positive { 0 < divisor }
    requires entries { All (λ entry. 1 ≤ entry) part.now }
    requires divides { All (λ entry. divisor ∣ entry) part.now }
    requires small { times < 2 ^ 62 }
    ensures { IfOk result (λ holds. IsTrue holds ↔ IsMember part.now (times * divisor)) }
{
    let smaller = divided(alloc, part.as_slice(), divisor)?;
    is_sum(alloc, smaller.as_slice(), times)
}

/// Whether the product of the divisors is a sum of the entries of both parts. The side with the shorter table is tried
/// first, which leaves few for the other.
fn meets(alloc: Global, split: &Split) -> Result<bool, AllocError>
    requires left { IsSide split.now.left split.now.d_left }
    requires right { IsSide split.now.right split.now.d_right }
    ensures { IfOk result (λ holds. IsTrue holds ↔ IsMet split.now) }
{
    if split.d_left <= split.d_right {
        Ok(
            is_reached(alloc, &split.right, split.d_right, split.d_left)?
                && is_reached(alloc, &split.left, split.d_left, split.d_right)?,
        )
    } else {
        Ok(
            is_reached(alloc, &split.left, split.d_left, split.d_right)?
                && is_reached(alloc, &split.right, split.d_right, split.d_left)?,
        )
    }
}

/// Adds the gluing whose first part is the given one, where there is one.
fn add_gluing(
    alloc: Global,
    generators: &[u64],
    left: Nats,
    list: &mut Splits,
) -> Result<(), AllocError>
    requires semigroup { IsNumericalSemigroup generators.now }
    requires ascending { IsStrictlyIncreasing generators.now }
    requires small { All (λ g. g < 2 ^ 62) generators.now }
    requires chosen { IsChosen generators.now left }
    ensures { OnOk result (AddsGluing generators.now left list.old list.new) }
{
    let right = others(alloc, generators, left.as_slice())?;
    if right.is_empty() {
        return Ok(());
    }
    let d_left = common_divisor(left.as_slice());
    let d_right = common_divisor(right.as_slice());
    let split = Split {
        left,
        right,
        d_left,
        d_right,
    };
    if meets(alloc, &split)? {
        list.push(split)?;
    }
    Ok(())
}

/// The gluings of a numerical semigroup: each way to part the minimal generators in two, so that the least common multiple
/// of the greatest common divisors of both parts is a sum of multiples of each. The part with the first generator stands on
/// the left; the shorter left part comes first, and of those as long the lexicographically lesser (Rosales and
/// Garcia-Sanchez, Numerical Semigroups, 2009, chapter 8). There are at most `GLUING_GENERATORS` generators, and the span
/// is at most `GLUING_SPAN_LIMIT`; want of memory is the one refusal.
pub fn gluings(alloc: Global, t: &Table) -> Result<Splits, AllocError>
    requires { IsGluable t.now }
    ensures { IfOk result (AreGluings t.now) }
{
    let generators = t.generators().as_slice();
    let mut list = Splits::new(alloc);
    for choice in parts_of(alloc, &generators[1..])? {
        let chosen = choice?;
        let left = with_first(alloc, generators[0], &chosen)?;
        add_gluing(alloc, generators, left, &mut list)?;
    }
    Ok(list)
}
