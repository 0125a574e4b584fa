//! The small elements of the naturals outside a list.

ghost use Rattle.std.specs.Prelude.{◌≡◌, ◌*◌, ◌<◌, ◌≤◌, ◌↔◌, ℕ, length, slice_index, Contains, EachIndex, IfOk, IsTrue, IsFalse};
ghost use Rattle.std.specs.List.Sorted.{IsStrictlyIncreasing};
ghost use Rattle.sg_small.specs.Sets.{IsInSmall, IsOutside};
ghost use Rattle.sg_small.specs.Small.{AreSmallElements};

use std::alloc::{AllocError, Global};

/// Whether each number is below twice how many there are. The gaps of a numerical semigroup are: of two numbers whose
/// sum is the Frobenius number one is a gap.
pub fn are_below_double(gaps: &[u64]) -> bool
    ensures below { IsTrue result → EachIndex gaps.now (λ k. slice_index gaps.now k < 2 * length gaps.now) }
    ensures past { IsFalse result → (k : ℕ) × (k < length gaps.now) × (2 * length gaps.now ≤ slice_index gaps.now k) }
{
    for gap in gaps {
        if *gap >= 2 * gaps.len() as u64 {
            return false;
        }
    }
    true
}

/// Whether a number stands at this place.
fn stands_at(list: &[u64], place: usize, number: u64) -> bool
    ensures there { IsTrue result → (place < length list.now) × (slice_index list.now place ≡ number) }
    ensures elsewhere { IsFalse result → place < length list.now → slice_index list.now place ≡ number → ⊥ }
{
    place < list.len() && list[place] == number
}

/// The naturals up to twice the number of gaps that are no gaps.
pub fn complement(alloc: Global, gaps: &[u64]) -> Result<Vec<u64>, AllocError>
    requires ascending { IsStrictlyIncreasing gaps.now }
    requires positive { Contains gaps.now 0 → ⊥ }
    requires below { EachIndex gaps.now (λ k. slice_index gaps.now k < 2 * length gaps.now) }
    ensures list { IfOk result (λ list. AreSmallElements list.items) }
    ensures same { IfOk result (λ list. (n : ℕ) → IsOutside gaps.now n ↔ IsInSmall list.items n) }
{
    let mut list = Vec::new(alloc);
    let mut next = 0;
    for n in 0..2 * gaps.len() as u64 + 1 {
        if stands_at(gaps, next, n) {
            next += 1;
        } else {
            list.push(n)?;
        }
    }
    Ok(list)
}
