//! Modular and proportionally modular semigroups (Rosales and Garcia-Sanchez, Numerical Semigroups, 2009).

ghost use Rattle.sg_rows_constructors.specs.Rows.{modular_row, proportional_row};
ghost use Rattle.sg_rows.specs.Made.{Tells};

use crate::settling::settled;
use sg_apery::{MODULUS_LIMIT, Table};
use sg_rows::{CallFault, Fault, Made};
use std::alloc::Global;

/// The semigroup of the naturals `x` with `a x mod b <= x`.
pub fn modular(alloc: Global, a: i64, b: i64) -> Result<Made, CallFault>
    ensures { Tells result (modular_row a b) }
{
    if b > MODULUS_LIMIT as i64 {
        return Err(CallFault::Script(Fault::TooLarge));
    }
    if a < 1 || b < 1 {
        return Err(CallFault::Script(Fault::BadArgument));
    }
    settled(Table::modular(alloc, a as u64, b as u64))
}

/// The semigroup of the naturals `x` with `a x mod b <= c x`.
pub fn proportional(alloc: Global, a: i64, b: i64, c: i64) -> Result<Made, CallFault>
    ensures { Tells result (proportional_row a b c) }
{
    if b > MODULUS_LIMIT as i64 {
        return Err(CallFault::Script(Fault::TooLarge));
    }
    if a < 1 || b < 1 || c < 1 {
        return Err(CallFault::Script(Fault::BadArgument));
    }
    settled(Table::prop_modular(alloc, a as u64, b as u64, c as u64))
}
