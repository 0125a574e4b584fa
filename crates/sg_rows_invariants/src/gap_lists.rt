//! The lists that grow with the span of a semigroup.

ghost use Rattle.sg_defs.specs.Invariants.{AreSmallElements, IsFundamentalGap, IsGap};
ghost use Rattle.sg_defs.specs.Listings.{Lists};
ghost use Rattle.sg_rows.specs.Limits.{spanned};
ghost use Rattle.sg_rows.specs.Made.{Tells};
ghost use Rattle.sg_rows.specs.Values.{naturals_with};

use sg_apery::Table;
use sg_invar::{conductor, fundamental_gaps, gaps, genus, small_elements};
use sg_rows::{CallFault, Fault, Made, is_heavy, is_wide};
use std::alloc::Global;

/// The gaps. Their number is known before the list is made.
pub(crate) fn gaps_within(alloc: Global, table: &Table) -> Result<Made, CallFault>
    ensures { Tells result (spanned table.now (naturals_with (Lists (IsGap table.now)))) }
{
    if is_wide(table) {
        return Err(CallFault::Script(Fault::TooLarge));
    }
    if is_heavy(genus(table)) {
        return Err(CallFault::Script(Fault::TooLarge));
    }
    Ok(Made::Naturals(gaps(alloc, table)?))
}

/// The small elements. Their number is known before the list is made: each number up to the conductor is a member or a
/// gap.
pub(crate) fn small_elements_within(alloc: Global, table: &Table) -> Result<Made, CallFault>
    ensures { Tells result (spanned table.now (naturals_with (AreSmallElements table.now))) }
{
    if is_wide(table) {
        return Err(CallFault::Script(Fault::TooLarge));
    }
    if is_heavy(conductor(table) + 1 - genus(table)) {
        return Err(CallFault::Script(Fault::TooLarge));
    }
    Ok(Made::Naturals(small_elements(alloc, table)?))
}

/// The fundamental gaps.
pub(crate) fn fundamental_gaps_within(alloc: Global, table: &Table) -> Result<Made, CallFault>
    ensures { Tells result (spanned table.now (naturals_with (Lists (IsFundamentalGap table.now)))) }
{
    if is_wide(table) {
        return Err(CallFault::Script(Fault::TooLarge));
    }
    Ok(Made::Naturals(fundamental_gaps(alloc, table)?))
}
