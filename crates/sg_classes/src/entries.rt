//! Lists of numbers: sorted, tested, and whether they generate a numerical semigroup.

ghost use Rattle.std.specs.Prelude.{◌<◌, ◌≤◌, ℕ, length, All, IsTrue, IsFalse, ◌↔◌, Contains};
ghost use Rattle.std.specs.Int.{◌∣◌};
ghost use Rattle.std.specs.List.Sorted.{IsStrictlyIncreasing};
ghost use Rattle.sg_defs.specs.Membership.{IsNumericalSemigroup};
ghost use Rattle.sg_classes.specs.Entries.{AreSmall, HasLarge, IsDivisorOfAll, IsGreatest};

use crate::limits::GENERATOR_LIMIT;
use sg_nat::gcd;

/// Whether every entry is below the limit.
pub fn are_small(entries: &[u64]) -> bool
    ensures all { IsTrue result → AreSmall entries.now }
    ensures one { IsFalse result → HasLarge entries.now }
{
    for entry in entries {
        if *entry >= GENERATOR_LIMIT {
            return false;
        }
    }
    true
}

/// The greatest common divisor of the entries, and 0 of no entries.
fn common_divisor(entries: &[u64]) -> u64
    ensures { (d : ℕ) → (d ∣ result) ↔ IsDivisorOfAll d entries.now }
{
    let mut divisor = 0;
    for entry in entries {
        divisor = gcd(divisor, *entry);
    }
    divisor
}

/// Whether no entry is 0.
fn are_positive(entries: &[u64]) -> bool
    ensures { IsTrue result ↔ All (λ entry. 1 ≤ entry) entries.now }
{
    entries.iter().all(|entry| *entry >= 1)
}

/// Whether the entries generate a numerical semigroup.
pub fn is_numerical_semigroup(entries: &[u64]) -> bool
    ensures { IsTrue result ↔ IsNumericalSemigroup entries.now }
{
    if entries.is_empty() {
        return false;
    }
    if !are_positive(entries) {
        return false;
    }
    common_divisor(entries) == 1
}

/// The greatest entry.
pub fn greatest(entries: &[u64]) -> u64
    requires { 0 < length entries.now }
    ensures { IsGreatest entries.now result }
{
    let mut found = entries[0];
    for entry in entries {
        if *entry > found {
            found = *entry;
        }
    }
    found
}

/// Sorts the entries and leaves each once.
pub fn sort_distinct(entries: &mut Vec<u64>)
    ensures ascending { IsStrictlyIncreasing entries.new.items }
    ensures keeps { (x : ℕ) → Contains entries.old.items x → Contains entries.new.items x }
    ensures adds_none { (x : ℕ) → Contains entries.new.items x → Contains entries.old.items x }
{
    entries.sort_unstable();
    entries.dedup();
}
