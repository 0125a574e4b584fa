//! The decomposition into irreducible semigroups.

ghost use Rattle.std.specs.Prelude.{◌≡◌, ◌*◌, ◌<◌, ◌≤◌, ℕ, ℤ, [], pos, ◌≤ℤ◌, length, reverse, IfOk, IsTrue, ◌↔◌};
ghost use Rattle.std.specs.List.{AllZip};
ghost use Rattle.sg_defs.specs.Decomposition.{IsInCover, IsInEachCover, IsChosen, IsDecomposition, IsIrredundant};
ghost use Rattle.sg_defs.specs.Listings.{ListsIntegers};
ghost use Rattle.sg_defs.specs.Invariants.{IsSpecialGap};
ghost use Rattle.sg_defs.specs.Membership.{Generates};
ghost use Rattle.sg_lawful.specs.Spans.{IsShort};
ghost use Rattle.sg_irred.specs.Cover.{AreNatural};

use crate::cover_of::{cover, is_in_cover};
use sg_apery::{APERY_ENTRY_LIMIT, Table};
use sg_nat::{Ints, Rows};
use std::alloc::{AllocError, Global};

/// Whether a number lies in the cover of each of the given ones.
fn is_in_each_cover(table: &Table, given: &[i64], h: i64) -> bool
    requires given { AreNatural given.now }
    requires natural { pos 0 ≤ℤ h }
    requires high { h ≤ℤ pos APERY_ENTRY_LIMIT }
    ensures { IsTrue result ↔ IsInEachCover table.now given.now h }
{
    for k in given {
        if !is_in_cover(table, *k, h as u64) {
            return false;
        }
    }
    true
}

/// The special gaps in descending order of which each is kept that lies in the cover of each one kept before it.
fn chosen_gaps(alloc: Global, table: &Table, special: &[i64]) -> Result<Ints, AllocError>
    requires { AreNatural special.now }
    ensures chosen { IfOk result (IsChosen table.now [] (reverse special.now)) }
    ensures natural { IfOk result AreNatural }
{
    let mut chosen = Ints::new(alloc);
    for i in 0..special.len() {
        let h = special[special.len() - 1 - i];
        if is_in_each_cover(table, chosen.as_slice(), h) {
            chosen.push(h)?;
        }
    }
    Ok(chosen)
}

/// The minimal generators of the cover of each of the given gaps.
fn covers(alloc: Global, table: &Table, chosen: &[i64]) -> Result<Rows, AllocError>
    requires natural { AreNatural chosen.now }
    requires span { IsShort table.now }
    ensures { IfOk result (AllZip (λ h M. Generates (IsInCover table.now h) M) chosen.now) }
{
    let mut rows = Rows::new(alloc);
    for h in chosen {
        rows.push(cover(alloc, table, *h)?)?;
    }
    Ok(rows)
}

/// The semigroup as the intersection of irreducible ones, none of which can be left out: the covers of chosen special
/// gaps, by their minimal generators. The special gaps are walked in descending order, and each is chosen that lies in
/// the cover of each one chosen before. Where there is no special gap, as in N alone, it is the semigroup itself
/// (Rosales and Garcia-Sanchez).
pub fn decompose(alloc: Global, table: &Table, special: &Ints) -> Result<Rows, AllocError>
    requires special { ListsIntegers (IsSpecialGap table.now) special.now }
    requires span { IsShort table.now }
    ensures decomposition { IfOk result (IsDecomposition table.now) }
    ensures irredundant { IfOk result (IsIrredundant table.now) }
{
    if special.is_empty() {
        let mut rows = Rows::new(alloc);
        rows.push(table.generators().try_clone()?)?;
        return Ok(rows);
    }
    let chosen = chosen_gaps(alloc, table, special.as_slice())?;
    covers(alloc, table, chosen.as_slice())
}
