//! The Frobenius number, the conductor and the genus.

ghost use Rattle.std.specs.Prelude.{◌≤◌, ◌⊎◌, ℕ, pos, negsuc, ◌≤ℤ◌, ◌<ℤ◌};
ghost use Rattle.sg_defs.specs.Membership.{IsMember};
ghost use Rattle.sg_defs.specs.Invariants.{IsFrobenius, IsConductor, IsGap, IsGenus};

use sg_apery::{APERY_ENTRY_LIMIT, Table};

/// The greatest integer that is no member, and -1 for the semigroup of all naturals: the greatest entry of the Apery
/// list less the multiplicity (Rosales and Garcia-Sanchez, Proposition 2.12). It takes no memory.
pub fn frobenius(table: &Table) -> i64
    ensures frobenius { IsFrobenius table.now result }
    ensures low { negsuc 0 ≤ℤ result }
    ensures high { result <ℤ pos APERY_ENTRY_LIMIT }
{
    let multiplicity = table.multiplicity();
    let mut greatest = table.entry(0);
    for i in 0..multiplicity as usize {
        greatest = greatest.max(table.entry(i));
    }
    greatest as i64 - multiplicity as i64
}

/// The least number from which on every integer is a member: the Frobenius number and 1. It takes no memory.
pub fn conductor(table: &Table) -> u64
    ensures conductor { IsConductor table.now result }
    ensures small { result ≤ APERY_ENTRY_LIMIT }
{
    (frobenius(table) + 1) as u64
}

/// The number of gaps: of the class of `w` in the Apery list there are `w / m`, for the multiplicity `m` (Selmer's
/// formula; Rosales and Garcia-Sanchez, Proposition 2.12). Each natural is a member or a gap. It takes no memory.
pub fn genus(table: &Table) -> u64
    ensures genus { IsGenus table.now result }
    ensures decided { (n : ℕ) → IsMember table.now n ⊎ IsGap table.now n }
    ensures small { result ≤ APERY_ENTRY_LIMIT }
{
    let multiplicity = table.multiplicity();
    let mut gaps = 0;
    for i in 0..multiplicity as usize {
        gaps += table.entry(i) / multiplicity;
    }
    gaps
}
