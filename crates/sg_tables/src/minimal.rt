//! The minimal generators among given ones.

ghost use Rattle.std.specs.Prelude.{◌≡◌, ◌+◌, ◌<◌, ◌≤◌, ℕ, length, slice_index, EachIndex, IfOk, IfSome, IsNone, IsTrue, ◌↔◌};
ghost use Rattle.std.specs.List.Sorted.{IsStrictlyIncreasing};
ghost use Rattle.sg_defs.specs.Membership.{IsMember, Generates};
ghost use Rattle.sg_classes.specs.Classes.{IsAboveEntry};
ghost use Rattle.sg_classes.specs.Table.{IsAperyTable};
ghost use Rattle.sg_tables.specs.Minimal.{IsPartOf, IsSpare, IsSummandAt};
ghost use Rattle.sg_tables.specs.Sums.{AreSumBounds};

use crate::sums::sum_bounds;
use sg_classes::is_above_entry;
use sg_nat::Nats;
use std::alloc::{AllocError, Global};

/// How many of the ascending entries are at most the half of a number.
fn half_count(minimal: &[u64], number: u64) -> usize
    requires { IsStrictlyIncreasing minimal.now }
    ensures inside { result ≤ length minimal.now }
    ensures before { (k : ℕ) → k < result → slice_index minimal.now k + slice_index minimal.now k ≤ number }
    ensures after { (k : ℕ) → result ≤ k → k < length minimal.now → number < slice_index minimal.now k + slice_index minimal.now k }
{
    let mut low = 0;
    let mut high = minimal.len();
    while low < high {
        let middle = low + (high - low) / 2;
        if minimal[middle] > number / 2 {
            high = middle;
        } else {
            low = middle + 1;
        }
    }
    high
}

/// The place of a summand of a number among the ascending `minimal`: one that leaves a number that is at least the entry
/// of its class. Of two summands one is at most the half, so only those are tried, from `near` outwards.
fn summand_place(table: &[u64], minimal: &[u64], number: u64, near: usize) -> Option<usize>
    requires not_empty { 0 < length table.now }
    requires ascending { IsStrictlyIncreasing minimal.now }
    ensures found { IfSome result (IsSummandAt table.now minimal.now number) }
    ensures none { IsNone result → IsSpare table.now minimal.now number → ⊥ }
{
    let count = half_count(minimal, number);
    let start = if near < count { near } else { 0 };
    for step in 0..count {
        let above = start + step;
        if above < count && is_above_entry(table, number - minimal[above]) {
            return Some(above);
        }
        if step <= start && is_above_entry(table, number - minimal[start - step]) {
            return Some(start - step);
        }
    }
    None
}

/// Whether a number has a summand, with no search where it is below the bound for sums of its class. The place that is
/// found is kept for the next number of the class, which mostly has a summand near it.
fn is_spare(
    table: &[u64],
    bounds: &[u64],
    places: &mut [usize],
    minimal: &[u64],
    number: u64,
) -> bool
    requires not_empty { 0 < length table.now }
    requires ascending { IsStrictlyIncreasing minimal.now }
    requires bounds { 0 < length bounds.now }
    requires bounded { IsSpare table.now minimal.now number → IsAboveEntry bounds.now number }
    requires places { length places.old ≡ length bounds.now }
    ensures { IsTrue result ↔ IsSpare table.now minimal.now number }
{
    if !is_above_entry(bounds, number) {
        return false;
    }
    let class = (number % bounds.len() as u64) as usize;
    let Some(place) = summand_place(table, minimal, number, places[class]) else {
        return false;
    };
    places[class] = place;
    true
}

/// The ascending entries that are not spare, by bounds for the sums of each class, and a place for each to start from.
fn part_within(
    alloc: Global,
    table: &[u64],
    entries: &[u64],
    bounds: &[u64],
    places: &mut [usize],
) -> Result<Nats, AllocError>
    requires not_empty { 0 < length table.now }
    requires ascending { IsStrictlyIncreasing entries.now }
    requires positive { EachIndex entries.now (λ k. 0 < slice_index entries.now k) }
    requires made { (x : ℕ) → IsAboveEntry table.now x → IsMember entries.now x }
    requires bounds { AreSumBounds entries.now bounds.now }
    requires places { length places.old ≡ length bounds.now }
    ensures { IfOk result (λ part. IsPartOf table.now entries.now part (length entries.now)) }
{
    let mut part = Nats::new(alloc);
    for entry in entries {
        if !is_spare(table, bounds, places, part.as_slice(), *entry) {
            part.push(*entry)?;
        }
    }
    Ok(part)
}

/// The ascending entries that are not spare.
pub fn needed_part(alloc: Global, table: &[u64], entries: &[u64]) -> Result<Nats, AllocError>
    requires not_empty { 0 < length table.now }
    requires ascending { IsStrictlyIncreasing entries.now }
    requires positive { EachIndex entries.now (λ k. 0 < slice_index entries.now k) }
    requires made { (x : ℕ) → IsAboveEntry table.now x → IsMember entries.now x }
    ensures { IfOk result (λ part. IsPartOf table.now entries.now part (length entries.now)) }
{
    let bounds = sum_bounds(alloc, entries)?;
    let mut places = vec![in alloc; 0; bounds.len()]?;
    part_within(alloc, table, entries, &bounds, &mut places)
}

/// The minimal generators among the given ones, of which `table` is an Apery list. An entry below the bound for sums of
/// its class is settled by that, and so is each below twice the least; another by at most one look-up for each minimal
/// generator up to its half.
pub fn minimal_part(alloc: Global, table: &[u64], entries: &[u64]) -> Result<Nats, AllocError>
    requires table { IsAperyTable entries.now table.now }
    requires ascending { IsStrictlyIncreasing entries.now }
    ensures { IfOk result (λ minimal. Generates (IsMember entries.now) minimal) }
{
    needed_part(alloc, table, entries)
}
