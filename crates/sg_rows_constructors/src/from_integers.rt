//! Semigroups from integers: what one is to be is decided over all naturals.

ghost use Rattle.std.specs.Prelude.{◌↔◌, IsTrue};
ghost use Rattle.sg_rows.specs.Made.{Tells};
ghost use Rattle.sg_rows_constructors.specs.Integers.{AreBelow, AreWithin};
ghost use Rattle.sg_rows_constructors.specs.Rows.{apery_list_row, fundamental_gaps_row, gaps_row, generators_row, small_elements_row};

use crate::entries::{are_natural, are_positive, naturals_of};
use crate::settling::settled;
use sg_apery::{FUNDAMENTAL_GAP_LIMIT, GENERATOR_LIMIT, Table};
use sg_rows::{CallFault, Fault, Made};
use std::alloc::Global;

/// The semigroup with this Apery list.
pub(crate) fn by_apery_list(alloc: Global, zs: &[i64]) -> Result<Made, CallFault>
    ensures { Tells result (apery_list_row zs.now) }
{
    if !are_natural(zs) {
        return Err(CallFault::Script(Fault::BadArgument));
    }
    let given = naturals_of(alloc, zs)?;
    settled(Table::from_apery(alloc, &given))
}

/// Whether no entry is past the limit of fundamental gaps.
fn are_within(zs: &[i64]) -> bool
    ensures { IsTrue result ↔ AreWithin zs.now }
{
    zs.iter().all(|z| *z <= FUNDAMENTAL_GAP_LIMIT as i64)
}

/// The semigroup with fundamental gaps among these.
pub(crate) fn by_fundamental_gaps(alloc: Global, zs: &[i64]) -> Result<Made, CallFault>
    ensures { Tells result (fundamental_gaps_row zs.now) }
{
    if !are_within(zs) {
        return Err(CallFault::Script(Fault::TooLarge));
    }
    if !are_positive(zs) {
        return Err(CallFault::Script(Fault::BadArgument));
    }
    let given = naturals_of(alloc, zs)?;
    settled(Table::from_fundamental_gaps(alloc, &given))
}

/// The semigroup with these gaps.
pub(crate) fn by_gaps(alloc: Global, zs: &[i64]) -> Result<Made, CallFault>
    ensures { Tells result (gaps_row zs.now) }
{
    if !are_positive(zs) {
        return Err(CallFault::Script(Fault::BadArgument));
    }
    let given = naturals_of(alloc, zs)?;
    settled(Table::from_gaps(alloc, &given))
}

/// Whether all are below the limit of generators.
fn are_below(zs: &[i64]) -> bool
    ensures { IsTrue result ↔ AreBelow zs.now }
{
    zs.iter().all(|z| *z < GENERATOR_LIMIT as i64)
}

/// The semigroup that these generate.
pub(crate) fn generated(alloc: Global, zs: &[i64]) -> Result<Made, CallFault>
    ensures { Tells result (generators_row zs.now) }
{
    if !are_below(zs) {
        return Err(CallFault::Script(Fault::TooLarge));
    }
    if !are_positive(zs) {
        return Err(CallFault::Script(Fault::BadArgument));
    }
    let given = naturals_of(alloc, zs)?;
    settled(Table::from_generators(alloc, &given))
}

/// The semigroup with these small elements.
pub(crate) fn by_small_elements(alloc: Global, zs: &[i64]) -> Result<Made, CallFault>
    ensures { Tells result (small_elements_row zs.now) }
{
    if !are_natural(zs) {
        return Err(CallFault::Script(Fault::BadArgument));
    }
    let given = naturals_of(alloc, zs)?;
    settled(Table::from_small_elements(alloc, &given))
}
