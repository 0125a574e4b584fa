//! The cover of a gap: the irreducible numerical semigroup above the given one in which it is the Frobenius number.

ghost use Rattle.std.specs.Prelude.{◌≡◌, ◌+◌, ◌-◌, ◌*◌, ◌%◌, ◌<◌, ◌≤◌, ℕ, pos, ◌≤ℤ◌, length, slice_index, IfOk, IsTrue, ◌↔◌};
ghost use Rattle.sg_defs.specs.Decomposition.{IsInCover};
ghost use Rattle.sg_defs.specs.Membership.{Generates};
ghost use Rattle.sg_lawful.specs.Spans.{IsShort};
ghost use Rattle.sg_irred.specs.Cover.{HasLesser, IsLeastInCover, IsCoverList};

use sg_apery::{APERY_ENTRY_LIMIT, Table};
use sg_nat::Nats;
use sg_tables::kunz_generators;
use std::alloc::{AllocError, Global};

/// Whether a number lies in the cover of `h`: it is a member, or it is past half of `h` while `h` less it is none.
pub(crate) fn is_in_cover(table: &Table, h: i64, x: u64) -> bool
    requires natural { pos 0 ≤ℤ h }
    requires high { h ≤ℤ pos APERY_ENTRY_LIMIT }
    requires small { x ≤ APERY_ENTRY_LIMIT }
    ensures { IsTrue result ↔ IsInCover table.now h x }
{
    let number = x as i64;
    if table.contains(number) {
        return true;
    }
    number > h - number && !table.contains(h - number)
}

/// Whether a number less the multiplicity lies in the cover.
fn has_lesser(table: &Table, h: i64, x: u64) -> bool
    requires natural { pos 0 ≤ℤ h }
    requires high { h ≤ℤ pos APERY_ENTRY_LIMIT }
    requires small { x ≤ APERY_ENTRY_LIMIT }
    ensures { IsTrue result ↔ HasLesser table.now h x }
{
    let multiplicity = table.multiplicity();
    if x < multiplicity {
        return false;
    }
    is_in_cover(table, h, x - multiplicity)
}

/// The least number of the cover in the residue class of one of its numbers, modulo the multiplicity.
fn least_in_cover(table: &Table, h: i64, from: u64) -> u64
    requires natural { pos 0 ≤ℤ h }
    requires high { h ≤ℤ pos APERY_ENTRY_LIMIT }
    requires small { from ≤ APERY_ENTRY_LIMIT }
    requires covered { IsInCover table.now h from }
    ensures { IsLeastInCover table.now h from result }
{
    let multiplicity = table.multiplicity();
    let mut least = from;
    while has_lesser(table, h, least) {
        least -= multiplicity;
    }
    least
}

/// The least number of the cover in each residue class modulo the multiplicity.
fn cover_list(alloc: Global, table: &Table, h: i64) -> Result<Vec<u64>, AllocError>
    requires natural { pos 0 ≤ℤ h }
    requires high { h ≤ℤ pos APERY_ENTRY_LIMIT }
    ensures list { IfOk result (λ list. IsCoverList table.now h (slice_index table.now 0) list.items) }
    ensures not_empty { IfOk result (λ list. 0 < length list.items) }
{
    let mut list = Vec::new(alloc);
    for i in 0..table.multiplicity() as usize {
        list.push(least_in_cover(table, h, table.entry(i)))?;
    }
    Ok(list)
}

/// The minimal generators of the cover of `h`: the members, all numbers above `h`, and of two numbers with the sum `h`,
/// of which neither is a member, the greater. Where `h` is a gap it is the Frobenius number of the cover, which is
/// irreducible (Rosales and Garcia-Sanchez). The least numbers of its classes meet Kunz's conditions, so its generators
/// are read off them and no table is made.
pub fn cover(alloc: Global, table: &Table, h: i64) -> Result<Nats, AllocError>
    requires natural { pos 0 ≤ℤ h }
    requires high { h ≤ℤ pos APERY_ENTRY_LIMIT }
    requires span { IsShort table.now }
    ensures { IfOk result (Generates (IsInCover table.now h)) }
{
    let list = cover_list(alloc, table, h)?;
    kunz_generators(alloc, &list)
}
