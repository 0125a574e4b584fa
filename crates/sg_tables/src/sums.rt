//! Bounds for the sums of two members, by residue classes modulo a small number.
//!
//! An entry below the bound of its class is no such sum, and so it is a minimal generator, with no search. Every modulus
//! gives bounds. The step from the least entry to the next gives good ones where the entries are long runs with that
//! step, as those of a proportionally modular semigroup are: a sum of two of them is in another class than they are.

ghost use Rattle.std.specs.Prelude.{◌≡◌, ◌+◌, ◌%◌, ◌<◌, ℕ, length, vec_len, sum, slice_index, IfOk, IsTrue, IsFalse};
ghost use Rattle.std.specs.List.Sorted.{IsStrictlyIncreasing};
ghost use Rattle.sg_tables.specs.Sums.{AreBelowEntries, AreBelowSums, AreSumBounds, IsBelowSumsAt, IsLowered};

use sg_classes::lower_all;
use std::alloc::{AllocError, Global};

/// The greatest number of classes: all pairs of them are tried.
const MOST_CLASSES: u64 = 1024;

/// How many classes are told apart: as many as the step from the least entry to the next, where that is few beside the
/// entries, and else one.
fn class_count(entries: &[u64]) -> usize
    requires { IsStrictlyIncreasing entries.now }
    ensures { 0 < result }
{
    if entries.len() < 2 {
        return 1;
    }
    let step = entries[1] - entries[0];
    if step <= MOST_CLASSES && step <= entries.len() as u64 / 16 {
        step as usize
    } else {
        1
    }
}

/// The least entry of each class.
fn least_entries(alloc: Global, entries: &[u64], classes: usize) -> Result<Vec<u64>, AllocError>
    requires { 0 < classes }
    ensures length { IfOk result (λ least. 0 < vec_len least) }
    ensures below { IfOk result (λ least. AreBelowEntries entries.now least.items) }
{
    let mut least = vec![in alloc; u64::MAX; classes]?;
    lower_all(&mut least, entries);
    Ok(least)
}

/// The class that makes `class` together with `first`.
fn other_class(classes: usize, class: usize, first: usize) -> usize
    requires class { class < classes }
    requires first { first < classes }
    ensures inside { result < classes }
    ensures only { (j : ℕ) → j < classes → (first + j) % classes ≡ class → j ≡ result }
{
    if first <= class {
        class - first
    } else {
        classes - (first - class)
    }
}

/// The least sum of two numbers whose classes make `class`.
fn least_sum(least: &[u64], class: usize) -> u64
    requires { class < length least.now }
    ensures { IsBelowSumsAt least.now class result }
{
    let mut found = u64::MAX;
    for first in 0..least.len() {
        let second = other_class(least.len(), class, first);
        found = found.min(least[first].saturating_add(least[second]));
    }
    found
}

/// Lowers the number of a class to the least such sum, where it is greater, and says whether it was.
fn lower_class(least: &mut [u64], class: usize) -> bool
    requires { class < length least.old }
    ensures lowered { IsLowered least.old least.new }
    ensures lower { IsTrue result → sum least.new < sum least.old }
    ensures same { IsFalse result → least.new ≡ least.old }
    ensures settled { IsFalse result → IsBelowSumsAt least.new class (slice_index least.new class) }
{
    let sum = least_sum(least, class);
    if sum < least[class] {
        least[class] = sum;
        true
    } else {
        false
    }
}

/// The same for each class in turn.
fn lower_classes(least: &mut [u64]) -> bool
    ensures lowered { IsLowered least.old least.new }
    ensures lower { IsTrue result → sum least.new < sum least.old }
    ensures settled { IsFalse result → AreBelowSums least.new least.new }
{
    let mut lowered = false;
    for class in 0..least.len() {
        if lower_class(least, class) {
            lowered = true;
        }
    }
    lowered
}

/// Lowers the numbers until none is greater than the sum of two whose classes make its class.
fn lower_fully(least: &mut [u64])
    ensures lowered { IsLowered least.old least.new }
    ensures settled { AreBelowSums least.new least.new }
{
    while lower_classes(least) {}
}

/// The least sum of two numbers for each class.
fn pair_sums(alloc: Global, least: &[u64]) -> Result<Vec<u64>, AllocError>
    ensures { IfOk result (λ sums. AreBelowSums least.now sums.items) }
{
    let mut sums = Vec::new(alloc);
    for class in 0..least.len() {
        sums.push(least_sum(least, class))?;
    }
    Ok(sums)
}

/// Bounds for the sums of two members above 0 of the semigroup that the entries generate: first the least member above
/// 0 of each class, as the least entry or as a sum, and then the sums of two of these.
pub fn sum_bounds(alloc: Global, entries: &[u64]) -> Result<Vec<u64>, AllocError>
    requires { IsStrictlyIncreasing entries.now }
    ensures { IfOk result (λ bounds. AreSumBounds entries.now bounds.items) }
{
    let mut least = least_entries(alloc, entries, class_count(entries))?;
    lower_fully(&mut least);
    pair_sums(alloc, &least)
}
