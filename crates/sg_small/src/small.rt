//! Small elements: some members, and all numbers above the greatest of them. Whether they are closed under sums.

ghost use Rattle.std.specs.Prelude.{◌≡◌, ◌<◌, ◌≤◌, ◌⊎◌, ◌↔◌, ℕ, length, IfOk, IsTrue, IsFalse};
ghost use Rattle.sg_small.specs.Sets.{IsClosedSet, IsInSmall, IsNotClosed};
ghost use Rattle.sg_small.specs.Small.{AreMarked, AreSmallElements, HasGapBefore, HasGapBelowLast, IsClosedAt, IsRun, IsSumAt};

use std::alloc::{AllocError, Global};

/// Marks the entries that are the sum of entry `which` and an entry above 0, in one walk along the list. It says false
/// where a sum up to the greatest entry is no entry.
fn mark_sums(list: &[u64], marked: &mut [bool], which: usize) -> bool
    requires list { AreSmallElements list.now }
    requires long { length marked.old ≡ length list.now }
    requires positive { 0 < which }
    requires which { which < length list.now }
    requires marks { AreMarked list.now marked.old }
    ensures marks { AreMarked list.now marked.new }
    ensures closed { IsTrue result → IsClosedAt list.now which }
    ensures broken { IsFalse result → IsNotClosed (IsInSmall list.now) }
{
    let mut other = 1;
    for place in which + 1..list.len() {
        let rest = list[place] - list[which];
        if rest > list[other] {
            return false;
        }
        if rest == list[other] {
            marked[place] = true;
            other += 1;
        }
    }
    true
}

/// The same, with no walk where every such sum is above the greatest entry.
fn try_sums(list: &[u64], marked: &mut [bool], which: usize) -> bool
    requires list { AreSmallElements list.now }
    requires long { length marked.old ≡ length list.now }
    requires positive { 0 < which }
    requires which { which < length list.now }
    requires marks { AreMarked list.now marked.old }
    ensures marks { AreMarked list.now marked.new }
    ensures closed { IsTrue result → IsClosedAt list.now which }
    ensures broken { IsFalse result → IsNotClosed (IsInSmall list.now) }
{
    if list[list.len() - 1] - list[which] < list[1] {
        return true;
    }
    mark_sums(list, marked, which)
}

/// Tries the sums of entry `which`, unless it is a sum itself.
fn settle(list: &[u64], marked: &mut [bool], which: usize) -> bool
    requires list { AreSmallElements list.now }
    requires long { length marked.old ≡ length list.now }
    requires positive { 0 < which }
    requires which { which < length list.now }
    requires marks { AreMarked list.now marked.old }
    ensures marks { AreMarked list.now marked.new }
    ensures settled { IsTrue result → IsClosedAt list.now which ⊎ IsSumAt list.now which }
    ensures broken { IsFalse result → IsNotClosed (IsInSmall list.now) }
{
    if marked[which] {
        return true;
    }
    try_sums(list, marked, which)
}

/// Tries the sums of each entry above 0.
fn settle_all(list: &[u64], marked: &mut [bool]) -> bool
    requires list { AreSmallElements list.now }
    requires long { length marked.old ≡ length list.now }
    requires marks { AreMarked list.now marked.old }
    ensures closed { IsTrue result → IsClosedSet (IsInSmall list.now) }
    ensures broken { IsFalse result → IsNotClosed (IsInSmall list.now) }
{
    for which in 1..list.len() {
        if !settle(list, marked, which) {
            return false;
        }
    }
    true
}

/// Whether the entries and all numbers above them are closed under sums: one walk along the list for each entry that is
/// no sum of two others.
pub fn is_closed(alloc: Global, list: &[u64]) -> Result<bool, AllocError>
    requires { AreSmallElements list.now }
    ensures closed { IfOk result (λ closed. IsTrue closed → IsClosedSet (IsInSmall list.now)) }
    ensures broken { IfOk result (λ closed. IsFalse closed → IsNotClosed (IsInSmall list.now)) }
{
    let mut marked = vec![in alloc; false; list.len()]?;
    Ok(settle_all(list, &mut marked))
}

/// The least entry above 0, or the number after the only entry.
pub fn least_positive(list: &[u64]) -> u64
    requires { AreSmallElements list.now }
    ensures positive { 0 < result }
    ensures member { IsInSmall list.now result }
    ensures least { (x : ℕ) → 0 < x → IsInSmall list.now x → result ≤ x }
{
    if list.len() > 1 { list[1] } else { 1 }
}

/// The place from which on each entry is the one before it and 1, and before which numbers are left out.
fn conductor_place(list: &[u64]) -> usize
    requires { AreSmallElements list.now }
    ensures inside { result < length list.now }
    ensures run { IsRun list.now result (length list.now) }
    ensures gap { HasGapBefore list.now result }
{
    let mut start = 0;
    for place in 1..list.len() {
        if list[place] - list[place - 1] > 1 {
            start = place;
        }
    }
    start
}

/// The entries up to the number before which the set has its greatest gap.
pub fn up_to_conductor(list: &[u64]) -> &[u64]
    requires { AreSmallElements list.now }
    ensures list { AreSmallElements result.now }
    ensures same { (n : ℕ) → IsInSmall list.now n ↔ IsInSmall result.now n }
    ensures gap { HasGapBelowLast result.now }
{
    &list[..conductor_place(list) + 1]
}
