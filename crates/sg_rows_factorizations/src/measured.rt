//! What takes the lengths of an element alone: it may have any number of factorizations.

ghost use Rattle.sg_defs.specs.Membership.{IsNumericalSemigroup};
ghost use Rattle.sg_rows.specs.Made.{Tells};
ghost use Rattle.sg_rows_factorizations.specs.Elements.{delta_row, lengths_row};

use sg_apery::Table;
use sg_factor::{LENGTH_LIMIT, delta_of, lengths};
use sg_rows::{CallFault, Fault, Made};
use std::alloc::Global;

/// The lengths. An element past the limit is TooLarge, and so is a semigroup that is not narrow.
pub(crate) fn lengths_within(alloc: Global, table: &Table, element: i64) -> Result<Made, CallFault>
    requires { IsNumericalSemigroup table.now }
    ensures { Tells result (lengths_row table.now element) }
{
    if element > LENGTH_LIMIT as i64 {
        return Err(CallFault::Script(Fault::TooLarge));
    }
    if !table.narrow() {
        return Err(CallFault::Script(Fault::TooLarge));
    }
    Ok(Made::Naturals(lengths(alloc, table, element)?))
}

/// The differences of neighbouring lengths, with the same refusals.
pub(crate) fn deltas_within(alloc: Global, table: &Table, element: i64) -> Result<Made, CallFault>
    requires { IsNumericalSemigroup table.now }
    ensures { Tells result (delta_row table.now element) }
{
    if element > LENGTH_LIMIT as i64 {
        return Err(CallFault::Script(Fault::TooLarge));
    }
    if !table.narrow() {
        return Err(CallFault::Script(Fault::TooLarge));
    }
    let lengths = lengths(alloc, table, element)?;
    Ok(Made::Naturals(delta_of(alloc, &lengths)?))
}
