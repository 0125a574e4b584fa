//! The least number of a set in each residue class, from its small elements.

ghost use Rattle.std.specs.Prelude.{◌≡◌, ◌%◌, ◌<◌, ◌≤◌, ◌-◌, ◌↔◌, ℕ, length, slice_index, IfOk};
ghost use Rattle.sg_classes.specs.Classes.{IsAboveEntry, IsKunz};
ghost use Rattle.sg_small.specs.Sets.{IsClosedSet, IsInSmall};
ghost use Rattle.sg_small.specs.Small.{AreLeastFrom, AreSmallElements};

use sg_classes::{APERY_ENTRY_LIMIT, MULTIPLICITY_LIMIT, lower_all};
use std::alloc::{AllocError, Global};

/// The least number from `start` on in a residue class.
fn least_from(start: u64, modulus: u64, class: u64) -> u64
    requires class { class < modulus }
    requires short { modulus ≤ MULTIPLICITY_LIMIT }
    requires start { start ≤ APERY_ENTRY_LIMIT }
    ensures residue { result % modulus ≡ class }
    ensures above { start ≤ result }
    ensures least { (x : ℕ) → start ≤ x → x % modulus ≡ class → result ≤ x }
{
    let least = start - start % modulus + class;
    if least < start {
        least + modulus
    } else {
        least
    }
}

/// The least number from `start` on in each residue class.
fn all_least_from(alloc: Global, start: u64, modulus: u64) -> Result<Vec<u64>, AllocError>
    requires short { modulus ≤ MULTIPLICITY_LIMIT }
    requires start { start ≤ APERY_ENTRY_LIMIT }
    ensures { IfOk result (λ table. AreLeastFrom start modulus table.items) }
{
    let mut table = Vec::new(alloc);
    for class in 0..modulus {
        table.push(least_from(start, modulus, class))?;
    }
    Ok(table)
}

/// The least number of each residue class among the entries, of which the greatest is within the limits, and the
/// numbers above them.
pub fn least_list(alloc: Global, list: &[u64], modulus: u64) -> Result<Vec<u64>, AllocError>
    requires list { AreSmallElements list.now }
    requires closed { IsClosedSet (IsInSmall list.now) }
    requires conductor { slice_index list.now (length list.now - 1) ≤ APERY_ENTRY_LIMIT }
    requires positive { 0 < modulus }
    requires short { modulus ≤ MULTIPLICITY_LIMIT }
    requires modulus { IsInSmall list.now modulus }
    ensures kunz { IfOk result (λ table. IsKunz table.items) }
    ensures same { IfOk result (λ table. (n : ℕ) → IsInSmall list.now n ↔ IsAboveEntry table.items n) }
{
    let mut table = all_least_from(alloc, list[list.len() - 1], modulus)?;
    lower_all(&mut table, list);
    Ok(table)
}
