//! Tests within the limit of the span.

ghost use Rattle.sg_defs.specs.Closures.{IsArf, IsSaturated};
ghost use Rattle.sg_rows.specs.Limits.{spanned};
ghost use Rattle.sg_rows.specs.Made.{Tells};
ghost use Rattle.sg_rows.specs.Values.{whether};

use sg_apery::Table;
use sg_closure::{is_arf, is_saturated};
use sg_rows::{CallFault, Fault, Made, is_wide};
use std::alloc::Global;

/// Whether it is Arf.
pub(crate) fn is_arf_within(alloc: Global, table: &Table) -> Result<Made, CallFault>
    ensures { Tells result (spanned table.now (whether (IsArf table.now))) }
{
    if is_wide(table) {
        return Err(CallFault::Script(Fault::TooLarge));
    }
    Ok(Made::Truth(is_arf(alloc, table)?))
}

/// Whether it is saturated.
pub(crate) fn is_saturated_within(alloc: Global, table: &Table) -> Result<Made, CallFault>
    ensures { Tells result (spanned table.now (whether (IsSaturated table.now))) }
{
    if is_wide(table) {
        return Err(CallFault::Script(Fault::TooLarge));
    }
    Ok(Made::Truth(is_saturated(alloc, table)?))
}
