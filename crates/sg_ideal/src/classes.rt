//! Sets of naturals by the least number in each residue class.

ghost use Rattle.std.specs.Prelude.{◌≡◌, ◌+◌, ◌-◌, ◌*◌, ◌^◌, ◌<◌, ◌≤◌, ◌⊎◌, ◌↔◌, ℕ, ℤ, ◌≤ℤ◌, length, Contains, IfOk, IsTrue};
ghost use Rattle.sg_classes.specs.Classes.{IsAboveEntry};
ghost use Rattle.sg_ideal.specs.Classes.{AreClasses, IsEveryClass, IsLeastAbove, IsReach, IsRebased, IsReduced, IsSpread};
ghost use Rattle.sg_ideal.specs.Value.{IsLeast};
ghost use Rattle.sg_lawful.specs.Generators.{AreSmall};

use sg_apery::MULTIPLICITY_LIMIT;
use std::alloc::{AllocError, Global};

/// Whether a number is in the set.
pub(crate) fn is_above(entries: &[u64], number: u64) -> bool
    requires { 0 < length entries.now }
    ensures { IsTrue result ↔ IsAboveEntry entries.now number }
{
    entries[(number % entries.len() as u64) as usize] <= number
}

/// Adds to a set the other one, moved up.
pub(crate) fn extend(entries: &mut [u64], other: &[u64], by: u64)
    requires entries { AreClasses entries.old }
    requires other { AreClasses other.now }
    requires long { length entries.old ≡ length other.now }
    requires by { by < 3 * 2 ^ 62 }
    ensures long { length entries.new ≡ length entries.old }
    ensures classes { AreClasses entries.new }
    ensures same { (n : ℕ) → IsAboveEntry entries.new n ↔ (IsAboveEntry entries.old n ⊎ ((by ≤ n) × IsAboveEntry other.now (n - by))) }
{
    let count = other.len();
    let back = count - (by % count as u64) as usize;
    for class in 0..count {
        let raised = by + other[(class + back) % count];
        entries[class] = entries[class].min(raised);
    }
}

/// Leaves of a set what is moved up into the other one.
pub(crate) fn narrow(entries: &mut [u64], other: &[u64], by: u64)
    requires entries { AreClasses entries.old }
    requires other { AreClasses other.now }
    requires long { length entries.old ≡ length other.now }
    ensures long { length entries.new ≡ length entries.old }
    ensures classes { AreClasses entries.new }
    ensures same { (n : ℕ) → IsAboveEntry entries.new n ↔ (IsAboveEntry entries.old n × IsAboveEntry other.now (n + by)) }
{
    let count = other.len();
    let ahead = (by % count as u64) as usize;
    for class in 0..count {
        let lowered = other[(class + ahead) % count].saturating_sub(by);
        entries[class] = entries[class].max(lowered);
    }
}

/// The sums of a number of the set and the distance of a generator from `base`, the least of them.
pub(crate) fn spread(
    alloc: Global,
    entries: &[u64],
    base: i64,
    generators: &[i64],
) -> Result<Vec<u64>, AllocError>
    requires classes { AreClasses entries.now }
    requires base { Contains generators.now base }
    requires small { AreSmall generators.now }
    requires least { (x : ℤ) → Contains generators.now x → base ≤ℤ x }
    ensures { IfOk result (λ list. IsSpread entries.now base generators.now list.items) }
{
    let mut list = Vec::from_slice(alloc, entries)?;
    for generator in generators {
        extend(&mut list, entries, (*generator - base) as u64);
    }
    Ok(list)
}

/// A set and its sums with a distance that is added up to `count` times. Where more of it adds nothing, no more ever does.
pub(crate) fn reach(
    alloc: Global,
    entries: &[u64],
    by: u64,
    count: u64,
) -> Result<Vec<u64>, AllocError>
    requires classes { AreClasses entries.now }
    requires by { by < 2 ^ 41 }
    requires count { count ≤ 3 * 2 ^ 22 }
    ensures { IfOk result (λ list. IsReach entries.now by count list.items) }
{
    let mut list = Vec::from_slice(alloc, entries)?;
    let mut reached = 0;
    while reached < count {
        let more = (reached + 1).min(count - reached);
        let before = Vec::from_slice(alloc, &list)?;
        extend(&mut list, &before, by * more);
        if list.as_slice() == before.as_slice() {
            return Ok(list);
        }
        reached += more;
    }
    Ok(list)
}

/// All naturals.
fn naturals(alloc: Global, count: usize) -> Result<Vec<u64>, AllocError>
    requires positive { 0 < count }
    requires short { count ≤ MULTIPLICITY_LIMIT }
    ensures { IfOk result (λ list. IsEveryClass count list.items) }
{
    let mut list = Vec::new(alloc);
    for class in 0..count {
        list.push(class as u64)?;
    }
    Ok(list)
}

/// What is moved up into a set by `by`.
pub(crate) fn rebased(alloc: Global, entries: &[u64], by: u64) -> Result<Vec<u64>, AllocError>
    requires { AreClasses entries.now }
    ensures { IfOk result (λ list. IsRebased entries.now by list.items) }
{
    let mut list = naturals(alloc, entries.len())?;
    narrow(&mut list, entries, by);
    Ok(list)
}

/// What each distance of a generator from `base`, the least of them, moves up into the set.
pub(crate) fn reduce(
    alloc: Global,
    entries: &[u64],
    base: i64,
    generators: &[i64],
) -> Result<Vec<u64>, AllocError>
    requires classes { AreClasses entries.now }
    requires small { AreSmall generators.now }
    requires least { IsLeast generators.now base }
    ensures { IfOk result (λ list. IsReduced entries.now base generators.now list.items) }
{
    let mut list = Vec::from_slice(alloc, entries)?;
    for generator in generators {
        narrow(&mut list, entries, (*generator - base) as u64);
    }
    Ok(list)
}

/// The least entry.
pub(crate) fn least_entry(entries: &[u64]) -> u64
    requires { AreClasses entries.now }
    ensures { IsLeastAbove entries.now result }
{
    let mut least = entries[0];
    for entry in entries {
        if *entry < least {
            least = *entry;
        }
    }
    least
}
