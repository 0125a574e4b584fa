//! The divisors of given numbers.

ghost use Rattle.std.specs.Prelude.{◌+◌, ◌<◌, ◌≤◌, ◌↔◌, ℕ, length, vec_len, slice_index, Contains, EachIndex, IfOk, IsTrue, IsFalse};
ghost use Rattle.sg_defs.specs.Listings.{Lists};
ghost use Rattle.sg_small.specs.Fundamental.{AreWithin, DividesAnEntry, HasMarkedMultiple, HasPast, IsDivisor, IsMarked};

use sg_classes::{FUNDAMENTAL_GAP_LIMIT, greatest};
use std::alloc::{AllocError, Global};

/// Whether no entry is past the limit.
pub fn are_within(list: &[u64]) -> bool
    ensures all { IsTrue result → AreWithin list.now }
    ensures one { IsFalse result → HasPast list.now }
{
    for entry in list {
        if *entry > FUNDAMENTAL_GAP_LIMIT {
            return false;
        }
    }
    true
}

/// A number that no entry exceeds: the greatest, or 0 of no entries.
fn bound(list: &[u64]) -> u64
    requires { AreWithin list.now }
    ensures above { EachIndex list.now (λ k. slice_index list.now k ≤ result) }
    ensures within { result ≤ FUNDAMENTAL_GAP_LIMIT }
{
    if list.is_empty() { 0 } else { greatest(list) }
}

/// Marks the entries in a table without marks.
fn mark_all(marks: &mut [bool], list: &[u64])
    requires room { EachIndex list.now (λ k. slice_index list.now k < length marks.old) }
    requires none { (x : ℕ) → IsMarked marks.old x → ⊥ }
    ensures { (x : ℕ) → IsMarked marks.new x ↔ Contains list.now x }
{
    for entry in list {
        marks[*entry as usize] = true;
    }
}

/// A table in which the entries are marked.
fn marked(alloc: Global, list: &[u64]) -> Result<Vec<bool>, AllocError>
    requires { AreWithin list.now }
    ensures marks { IfOk result (λ marks. (x : ℕ) → IsMarked marks.items x ↔ Contains list.now x) }
    ensures length { IfOk result (λ marks. vec_len marks ≤ FUNDAMENTAL_GAP_LIMIT + 1) }
{
    let mut marks = vec![in alloc; false; bound(list) as usize + 1]?;
    mark_all(&mut marks, list);
    Ok(marks)
}

/// Whether a multiple of a number, but 0, is marked.
fn has_marked_multiple(marks: &[bool], divisor: u64) -> bool
    requires positive { 0 < divisor }
    requires short { length marks.now ≤ FUNDAMENTAL_GAP_LIMIT + 1 }
    ensures { IsTrue result ↔ HasMarkedMultiple marks.now divisor }
{
    for factor in 1..marks.len() as u64 / divisor + 1 {
        let multiple = (factor * divisor) as usize;
        if multiple < marks.len() && marks[multiple] {
            return true;
        }
    }
    false
}

/// The numbers with a marked multiple, ascending.
fn marked_divisors(alloc: Global, marks: &[bool]) -> Result<Vec<u64>, AllocError>
    requires { length marks.now ≤ FUNDAMENTAL_GAP_LIMIT + 1 }
    ensures { IfOk result (λ divisors. Lists (IsDivisor marks.now) divisors.items) }
{
    let mut divisors = Vec::new(alloc);
    for divisor in 1..marks.len() as u64 {
        if has_marked_multiple(marks, divisor) {
            divisors.push(divisor)?;
        }
    }
    Ok(divisors)
}

/// The divisors of the entries, ascending.
pub fn divisors(alloc: Global, list: &[u64]) -> Result<Vec<u64>, AllocError>
    requires within { AreWithin list.now }
    requires positive { Contains list.now 0 → ⊥ }
    ensures { IfOk result (λ divisors. Lists (DividesAnEntry list.now) divisors.items) }
{
    let marks = marked(alloc, list)?;
    marked_divisors(alloc, &marks)
}
