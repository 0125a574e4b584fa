//! Ideals from an integer and an ideal.

ghost use Rattle.std.specs.Prelude.{◌≡◌};
ghost use Rattle.sg_rows_ideals.specs.Rows.{multiple_row, translate_row};
ghost use Rattle.sg_rows.specs.Made.{Tells};

use crate::settling::settled;
use sg_apery::Table;
use sg_ideal::{Ideal, multiple, translate};
use sg_rows::{CallFault, Fault, Made};
use std::alloc::Global;

/// The sums of `factor` members of an ideal over the semigroup of the table.
pub fn multiple_of(
    alloc: Global,
    factor: i64,
    table: &Table,
    ideal: &Ideal,
) -> Result<Made, CallFault>
    requires { ideal.now.ambient ≡ table.now }
    ensures { Tells result (multiple_row factor ideal.now) }
{
    if factor < 1 {
        return Err(CallFault::Script(Fault::BadArgument));
    }
    settled(alloc, table, multiple(alloc, factor as u64, ideal))
}

/// The sums of an integer and a member of an ideal over the semigroup of the table.
pub fn translate_of(alloc: Global, by: i64, table: &Table, ideal: &Ideal) -> Result<Made, CallFault>
    requires { ideal.now.ambient ≡ table.now }
    ensures { Tells result (translate_row by ideal.now) }
{
    settled(alloc, table, translate(alloc, by, ideal))
}
