//! The ideal that integers generate.

ghost use Rattle.sg_rows_ideals.specs.Rows.{generated_row};
ghost use Rattle.sg_rows.specs.Made.{Tells};

use crate::settling::settled;
use sg_apery::Table;
use sg_ideal::Ideal;
use sg_rows::{CallFault, Made};
use std::alloc::Global;

/// The relative ideal of a semigroup that integers generate: the sums of one of them and a member (Rosales and
/// Garcia-Sanchez, Numerical Semigroups, 2009).
pub fn generated(alloc: Global, given: &[i64], table: &Table) -> Result<Made, CallFault>
    ensures { Tells result (generated_row given.now table.now) }
{
    settled(alloc, table, Ideal::of_generators(alloc, table, given))
}
