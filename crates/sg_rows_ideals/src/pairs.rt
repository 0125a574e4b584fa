//! Ideals from two ideals of one semigroup.

ghost use Rattle.std.specs.Prelude.{◌≡◌};
ghost use Rattle.sg_rows_ideals.specs.Rows.{pair_row};
ghost use Rattle.sg_rows.specs.Made.{Tells};

use crate::settling::settled;
use sg_apery::Table;
use sg_ideal::{Ideal, intersect, subtract, sum};
use sg_rows::{CallFault, Made};
use std::alloc::Global;

/// An ideal from two.
#[derive(Clone, Copy)]
pub enum Pair {
    /// The integers that move each member of the second into the first.
    Difference,
    /// The members of both.
    Intersection,
    /// The sums of a member of each.
    Sum,
}

/// The ideal of two ideals, the first over the semigroup of the table.
pub fn pair_of(
    alloc: Global,
    pair: Pair,
    table: &Table,
    one: &Ideal,
    other: &Ideal,
) -> Result<Made, CallFault>
    requires { one.now.ambient ≡ table.now }
    ensures { Tells result (pair_row pair one.now other.now) }
{
    match pair {
        Pair::Difference => settled(alloc, table, subtract(alloc, one, other)),
        Pair::Intersection => settled(alloc, table, intersect(alloc, one, other)),
        Pair::Sum => settled(alloc, table, sum(alloc, one, other)),
    }
}
