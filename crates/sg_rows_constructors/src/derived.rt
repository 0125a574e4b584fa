//! Semigroups that others determine.

ghost use Rattle.sg_rows_constructors.specs.Rows.{intersection_row, quotient_row};
ghost use Rattle.sg_rows.specs.Made.{Tells};

use crate::settling::settled;
use sg_apery::{Table, intersect, quotient};
use sg_rows::{CallFault, Fault, Made};
use std::alloc::Global;

/// The members of both semigroups.
pub fn intersection(alloc: Global, one: &Table, other: &Table) -> Result<Made, CallFault>
    ensures { Tells result (intersection_row one.now other.now) }
{
    settled(intersect(alloc, one, other))
}

/// The naturals whose product with an integer is a member (Rosales and Garcia-Sanchez, Numerical Semigroups, 2009).
pub fn quotient_by(alloc: Global, table: &Table, divisor: i64) -> Result<Made, CallFault>
    ensures { Tells result (quotient_row table.now divisor) }
{
    if divisor < 1 {
        return Err(CallFault::Script(Fault::BadArgument));
    }
    settled(quotient(alloc, table, divisor as u64))
}
