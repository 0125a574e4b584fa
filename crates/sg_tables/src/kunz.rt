//! Kunz's conditions on a list of residue classes, and its minimal generators.

ghost use Rattle.std.specs.Prelude.{◌≡◌, ◌<◌, ◌≤◌, ◌+◌, ◌%◌, ◌↔◌, length, slice_index, EachIndex, IfOk, IsTrue};
ghost use Rattle.sg_defs.specs.Membership.{Generates};
ghost use Rattle.sg_classes.specs.Classes.{IsAboveEntry, IsClassList, IsKunz};
ghost use Rattle.sg_tables.specs.Closed.{AreClassGenerators, IsClosedUnder};
ghost use Rattle.sg_tables.specs.Minimal.{IsPartOf};
ghost use Rattle.sg_tables.specs.Spread.{IsSpread};

use crate::filling::settle;
use crate::minimal::{minimal_part, needed_part};
use crate::spread::spread;
use sg_classes::sort_distinct;
use sg_nat::Nats;
use std::alloc::{AllocError, Global};

/// So many generators are added to each entry one by one.
const FEW: usize = 128;

/// Whether entry 0 is 0, and each entry is congruent to its place.
fn is_class_list(list: &[u64]) -> bool
    ensures { IsTrue result ↔ IsClassList list.now }
{
    if list.is_empty() || list[0] != 0 {
        return false;
    }
    for (class, entry) in list.iter().enumerate() {
        if *entry % list.len() as u64 != class as u64 {
            return false;
        }
    }
    true
}

/// The modulus and the other entries, ascending.
fn class_generators(alloc: Global, list: &[u64]) -> Result<Vec<u64>, AllocError>
    requires { 0 < length list.now }
    ensures { IfOk result (λ entries. AreClassGenerators list.now entries.items) }
{
    let mut entries = Vec::from_slice(alloc, list)?;
    entries[0] = list.len() as u64;
    sort_distinct(&mut entries);
    Ok(entries)
}

/// Whether the sum of entry `class` and a generator is at least the entry of its class. The sum itself may not fit.
fn leads_up(list: &[u64], generator: u64, class: usize) -> bool
    requires { class < length list.now }
    ensures { IsTrue result ↔ (slice_index list.now ((class + generator) % length list.now) ≤ slice_index list.now class + generator) }
{
    let modulus = list.len() as u64;
    let target = (class as u64 + generator % modulus) % modulus;
    list[target as usize].saturating_sub(generator) <= list[class]
}

/// Whether the list is closed under a generator. One that is at least the spread of the entries is tried at entry 0 alone.
fn is_closed_under(list: &[u64], generator: u64, spread: u64) -> bool
    requires not_empty { 0 < length list.now }
    requires spread { IsSpread list.now spread }
    ensures { IsTrue result ↔ IsClosedUnder list.now generator }
{
    if generator >= spread {
        return leads_up(list, generator, 0);
    }
    for class in 0..list.len() {
        if !leads_up(list, generator, class) {
            return false;
        }
    }
    true
}

/// Whether the list is closed under each generator.
fn is_closed_under_each(list: &[u64], generators: &[u64]) -> bool
    requires { 0 < length list.now }
    ensures { IsTrue result ↔ EachIndex generators.now (λ k. IsClosedUnder list.now (slice_index generators.now k)) }
{
    let spread = spread(list);
    for generator in generators {
        if !is_closed_under(list, *generator, spread) {
            return false;
        }
    }
    true
}

/// Whether two lists are the same.
fn are_same(first: &[u64], second: &[u64]) -> bool
    ensures { IsTrue result ↔ (first.now ≡ second.now) }
{
    first == second
}

/// Whether no sum of its generators lowers an entry of a list. They are tried on a copy of it.
fn is_settled(
    alloc: Global,
    table: &mut [u64],
    summands: &mut [u64],
    generators: &[u64],
    list: &[u64],
) -> Result<bool, AllocError>
    requires classes { IsClassList list.now }
    requires generators { AreClassGenerators list.now generators.now }
    requires copy { table.old ≡ list.now }
    requires long { length summands.old ≡ length list.now }
    requires unmarked { EachIndex summands.old (λ k. slice_index summands.old k ≡ 0) }
    ensures { IfOk result (λ settled. IsTrue settled ↔ IsKunz list.now) }
{
    settle(alloc, table, summands, generators)?;
    Ok(are_same(table, list))
}

/// The same of all generators at once, which are put on a copy of the list.
fn settles(alloc: Global, list: &[u64], generators: &[u64]) -> Result<bool, AllocError>
    requires classes { IsClassList list.now }
    requires generators { AreClassGenerators list.now generators.now }
    ensures { IfOk result (λ settled. IsTrue settled ↔ IsKunz list.now) }
{
    let mut table = Vec::from_slice(alloc, list)?;
    let mut summands = vec![in alloc; 0; list.len()]?;
    is_settled(alloc, &mut table, &mut summands, generators, list)
}

/// Whether the list is closed under the generators that are no sums.
fn is_closed_by(list: &[u64], generators: &[u64], part: &[u64]) -> bool
    requires classes { IsClassList list.now }
    requires generators { AreClassGenerators list.now generators.now }
    requires part { IsPartOf list.now generators.now part.now (length generators.now) }
    ensures { IsTrue result ↔ IsKunz list.now }
{
    is_closed_under_each(list, part)
}

/// Whether a list of classes meets Kunz's conditions, which is so where no sum of its entries is below an entry. The few
/// that are no sums themselves are added to each entry. Where they are many, a pass that leaves out most sums is shorter.
fn is_kunz_by(alloc: Global, list: &[u64], generators: &[u64]) -> Result<bool, AllocError>
    requires classes { IsClassList list.now }
    requires generators { AreClassGenerators list.now generators.now }
    ensures { IfOk result (λ holds. IsTrue holds ↔ IsKunz list.now) }
{
    let part = needed_part(alloc, list, generators)?;
    if part.len() <= FEW {
        return Ok(is_closed_by(list, generators, part.as_slice()));
    }
    settles(alloc, list, generators)
}

/// Whether the list meets Kunz's conditions.
pub fn is_kunz(alloc: Global, list: &[u64]) -> Result<bool, AllocError>
    ensures { IfOk result (λ holds. IsTrue holds ↔ IsKunz list.now) }
{
    if !is_class_list(list) {
        return Ok(false);
    }
    let entries = class_generators(alloc, list)?;
    is_kunz_by(alloc, list, &entries)
}

/// The minimal generators of the semigroup of the numbers above their entries.
pub fn kunz_generators(alloc: Global, list: &[u64]) -> Result<Nats, AllocError>
    requires { IsKunz list.now }
    ensures { IfOk result (λ minimal. Generates (IsAboveEntry list.now) minimal) }
{
    let entries = class_generators(alloc, list)?;
    minimal_part(alloc, list, &entries)
}
