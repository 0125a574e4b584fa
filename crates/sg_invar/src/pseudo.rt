//! The pseudo-Frobenius numbers and the special gaps.

ghost use Rattle.std.specs.Prelude.{◌≡◌, ◌<◌, ◌≤◌, ℕ, pos, negsuc, neg_ℤ, ◌+ℤ◌, ◌-ℤ◌, ◌≤ℤ◌, ◌<ℤ◌, length, map, slice_index, EachIndex, IfOk, IsTrue, ◌↔◌};
ghost use Rattle.std.specs.List.Sorted.{IsStrictlyIncreasing};
ghost use Rattle.sg_defs.specs.Listings.{ListsIntegers};
ghost use Rattle.sg_defs.specs.Membership.{IsIntegerMember};
ghost use Rattle.sg_defs.specs.Invariants.{IsFrobenius, IsPseudoFrobenius, IsSpecialGap};
ghost use Rattle.sg_invar.specs.Maximal.{IsMaximalEntry, Collects};

use crate::numbers::frobenius;
use sg_apery::{APERY_ENTRY_LIMIT, MULTIPLICITY_LIMIT, Table};
use sg_nat::Ints;
use std::alloc::{AllocError, Global};

/// How many of ascending numbers are at most another.
fn count_up_to(numbers: &[u64], most: u64) -> usize
    requires { IsStrictlyIncreasing numbers.now }
    ensures inside { result ≤ length numbers.now }
    ensures after { (k : ℕ) → result ≤ k → k < length numbers.now → most < slice_index numbers.now k }
{
    numbers.partition_point(|number| *number <= most)
}

/// Whether the generator at a place moves a number to a member.
fn is_moved_inside(table: &Table, x: i64, place: usize) -> bool
    requires high { x <ℤ pos APERY_ENTRY_LIMIT }
    requires low { neg_ℤ (pos MULTIPLICITY_LIMIT) ≤ℤ x }
    requires place { place < length table.now }
    ensures { IsTrue result ↔ IsIntegerMember table.now (x +ℤ pos (slice_index table.now place)) }
{
    table.contains(x + table.generators().as_slice()[place] as i64)
}

/// Whether a number outside is pseudo-Frobenius: each generator moves it to a member. Those that move it past the
/// Frobenius number do. The others are tried from both ends, since the first or the last mostly tells where one does not.
fn is_pseudo_frobenius(table: &Table, x: i64, frobenius: i64) -> bool
    requires frobenius { IsFrobenius table.now frobenius }
    requires high { frobenius <ℤ pos APERY_ENTRY_LIMIT }
    requires outside { IsIntegerMember table.now x → ⊥ }
    requires low { neg_ℤ (pos MULTIPLICITY_LIMIT) ≤ℤ x }
    ensures { IsTrue result ↔ IsPseudoFrobenius table.now x }
{
    let reach = (frobenius - x) as u64;
    let count = count_up_to(table.generators().as_slice(), reach);
    for step in 0..count.div_ceil(2) {
        if !is_moved_inside(table, x, step) || !is_moved_inside(table, x, count - 1 - step) {
            return false;
        }
    }
    true
}

/// The maximal entries of the Apery list, in the order of their classes.
fn maximal_entries(alloc: Global, table: &Table) -> Result<Vec<u64>, AllocError>
    ensures { IfOk result (λ entries. Collects table.now (slice_index table.now 0) (slice_index table.now 0) entries.items) }
{
    let multiplicity = table.multiplicity();
    let greatest_gap = frobenius(table);
    let mut maximal = Vec::new(alloc);
    for i in 0..multiplicity as usize {
        let entry = table.entry(i);
        let lowered = entry as i64 - multiplicity as i64;
        if is_pseudo_frobenius(table, lowered, greatest_gap) {
            maximal.push(entry)?;
        }
    }
    Ok(maximal)
}

/// Each entry less a number.
fn lowered(alloc: Global, entries: &[u64], by: u64) -> Result<Ints, AllocError>
    requires entries { EachIndex entries.now (λ k. slice_index entries.now k ≤ APERY_ENTRY_LIMIT) }
    requires by { by ≤ MULTIPLICITY_LIMIT }
    ensures { IfOk result (λ numbers. numbers ≡ map (λ entry. pos entry -ℤ pos by) entries.now) }
{
    let mut numbers = Ints::new(alloc);
    for entry in entries {
        numbers.push(*entry as i64 - by as i64)?;
    }
    Ok(numbers)
}

/// The integers outside that each member above 0 moves inside, in ascending order; their number is the type. They are
/// the maximal entries of the Apery list less the multiplicity, where an entry is below another if their difference
/// is a member (Rosales and Garcia-Sanchez, Proposition 2.20). It takes at most e m steps, for e generators and the
/// multiplicity m.
pub fn pseudo_frobenius(alloc: Global, table: &Table) -> Result<Ints, AllocError>
    ensures { IfOk result (ListsIntegers (IsPseudoFrobenius table.now)) }
{
    let mut maximal = maximal_entries(alloc, table)?;
    maximal.sort_unstable();
    lowered(alloc, &maximal, table.multiplicity())
}

/// Whether twice a number is a member. Where that is past the Frobenius number it needs no look-up.
fn has_double(table: &Table, x: i64, frobenius: i64) -> bool
    requires frobenius { IsFrobenius table.now frobenius }
    requires high { frobenius <ℤ pos APERY_ENTRY_LIMIT }
    requires low { negsuc 0 ≤ℤ x }
    requires below { x ≤ℤ frobenius }
    ensures { IsTrue result ↔ IsIntegerMember table.now (x +ℤ x) }
{
    let double = x + x;
    double > frobenius || table.contains(double)
}

/// The pseudo-Frobenius numbers whose double is a member, in ascending order: those that give a numerical semigroup
/// where they are added (Rosales and Garcia-Sanchez). `pf` are the table's pseudo-Frobenius numbers.
pub fn special_gaps(alloc: Global, table: &Table, pf: &Ints) -> Result<Ints, AllocError>
    requires { ListsIntegers (IsPseudoFrobenius table.now) pf.now }
    ensures { IfOk result (ListsIntegers (IsSpecialGap table.now)) }
{
    let greatest_gap = frobenius(table);
    let mut special = Ints::new(alloc);
    for x in pf.as_slice() {
        if has_double(table, *x, greatest_gap) {
            special.push(*x)?;
        }
    }
    Ok(special)
}
