//! The minimal generators of a set that is told by residue classes.

ghost use Rattle.std.specs.Prelude.{◌≡◌, ◌*◌, ◌^◌, ◌<◌, ◌≤◌, ◌↔◌, ℤ, pos, neg_ℤ, ◌≤ℤ◌, ◌<ℤ◌, length, slice_index, EachIndex, IfOk, IfErr, IsTrue};
ghost use Rattle.std.specs.List.Sorted.{IsStrictlyIncreasing};
ghost use Rattle.sg_defs.specs.Listings.{Lists};
ghost use Rattle.sg_classes.specs.Classes.{IsAboveEntry};
ghost use Rattle.sg_ideal.specs.Classes.{AreClasses, IsIdealTable};
ghost use Rattle.sg_ideal.specs.Heads.{CollectsHeads, IsFree, IsHead, raised_by};
ghost use Rattle.sg_ideal.specs.Faults.{IsListFault};
ghost use Rattle.sg_lawful.specs.Generators.{AreSmall};

use crate::classes::is_above;
use crate::fault::IdealFault;
use crate::given::is_small;
use sg_apery::APERY_ENTRY_LIMIT;
use sg_nat::Ints;
use std::alloc::{AllocError, Global};

/// Whether no generator of the semigroup leads to a number from another of the set.
fn is_free(semigroup: &[u64], entries: &[u64], number: u64) -> bool
    requires entries { 0 < length entries.now }
    requires ascending { IsStrictlyIncreasing semigroup.now }
    ensures { IsTrue result ↔ IsFree semigroup.now entries.now number }
{
    for generator in semigroup {
        if *generator > number {
            return true;
        }
        if is_above(entries, number - *generator) {
            return false;
        }
    }
    true
}

/// The minimal generators in the order of their classes.
fn class_heads(alloc: Global, semigroup: &[u64], entries: &[u64]) -> Result<Vec<u64>, AllocError>
    requires { IsIdealTable semigroup.now entries.now }
    ensures { IfOk result (λ list. CollectsHeads semigroup.now entries.now (length entries.now) list.items) }
{
    let mut list = Vec::new(alloc);
    for entry in entries {
        if is_free(semigroup, entries, *entry) {
            list.push(*entry)?;
        }
    }
    Ok(list)
}

/// The minimal generators, ascending.
pub(crate) fn heads(
    alloc: Global,
    semigroup: &[u64],
    entries: &[u64],
) -> Result<Vec<u64>, AllocError>
    requires { IsIdealTable semigroup.now entries.now }
    ensures { IfOk result (λ list. Lists (IsHead semigroup.now entries.now) list.items) }
{
    let mut list = class_heads(alloc, semigroup, entries)?;
    list.sort_unstable();
    Ok(list)
}

/// Each number and `base`. TooLarge where one of them is past the limit.
pub(crate) fn raise(alloc: Global, base: i64, numbers: &[u64]) -> Result<Ints, IdealFault>
    requires low { neg_ℤ (pos (2 ^ 40)) ≤ℤ base }
    requires high { base ≤ℤ pos (2 ^ 40) }
    requires small { EachIndex numbers.now (λ k. slice_index numbers.now k ≤ APERY_ENTRY_LIMIT) }
    ensures raised { IfOk result (λ list. list ≡ raised_by base numbers.now) }
    ensures small { IfOk result AreSmall }
    ensures refused { IfErr result (IsListFault (raised_by base numbers.now)) }
{
    let mut list = Ints::new(alloc);
    for number in numbers {
        let x = base + *number as i64;
        if !is_small(x) {
            return Err(IdealFault::TooLarge);
        }
        list.push(x)?;
    }
    Ok(list)
}
