//! The gaps, the small elements and the fundamental gaps, each as an ascending list, by a walk up to the conductor.

ghost use Rattle.std.specs.Prelude.{◌≤◌, IfOk, IsTrue, ◌↔◌};
ghost use Rattle.sg_defs.specs.Listings.{Lists};
ghost use Rattle.sg_defs.specs.Invariants.{IsGap, AreSmallElements, IsFundamentalGap};

use crate::numbers::conductor;
use sg_apery::{APERY_ENTRY_LIMIT, Table};
use sg_nat::Nats;
use std::alloc::{AllocError, Global};

/// The naturals that are no members.
pub fn gaps(alloc: Global, table: &Table) -> Result<Nats, AllocError>
    ensures { IfOk result (Lists (IsGap table.now)) }
{
    let mut gaps = Nats::new(alloc);
    for n in 0..conductor(table) {
        if !table.contains_natural(n) {
            gaps.push(n)?;
        }
    }
    Ok(gaps)
}

/// The members up to the conductor, which is the last of them (Rosales and Garcia-Sanchez).
pub fn small_elements(alloc: Global, table: &Table) -> Result<Nats, AllocError>
    ensures { IfOk result (AreSmallElements table.now) }
{
    let mut members = Nats::new(alloc);
    for n in 0..conductor(table) + 1 {
        if table.contains_natural(n) {
            members.push(n)?;
        }
    }
    Ok(members)
}

/// Whether a number is a gap of which each multiple by 2 or more is a member. Twice and three times it are enough,
/// since every greater multiple is a sum of these.
fn is_fundamental_gap(table: &Table, n: u64) -> bool
    requires { n ≤ APERY_ENTRY_LIMIT }
    ensures { IsTrue result ↔ IsFundamentalGap table.now n }
{
    if table.contains_natural(n) {
        return false;
    }
    table.contains_natural(2 * n) && table.contains_natural(3 * n)
}

/// The gaps of which each multiple by 2 or more is a member (Rosales and Garcia-Sanchez).
pub fn fundamental_gaps(alloc: Global, table: &Table) -> Result<Nats, AllocError>
    ensures { IfOk result (Lists (IsFundamentalGap table.now)) }
{
    let mut fundamental = Nats::new(alloc);
    for n in 0..conductor(table) {
        if is_fundamental_gap(table, n) {
            fundamental.push(n)?;
        }
    }
    Ok(fundamental)
}
