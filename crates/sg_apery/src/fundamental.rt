//! Semigroups by their fundamental gaps.

ghost use Rattle.std.specs.Prelude.{IfOk, OnOk, IfErr};
ghost use Rattle.sg_defs.specs.Membership.{Generates};
ghost use Rattle.sg_small.specs.Fundamental.{AreWithin, DividesNone};
ghost use Rattle.sg_apery.specs.Fundamental.{AreFundamentalRefused};

use crate::fault::TableFault;
use crate::gaps::from_ascending_gaps;
use crate::small::has_zero;
use crate::table::Table;
use sg_small::{are_within, divisors};
use std::alloc::Global;

impl Table {
    /// The numerical semigroup of the naturals that divide none of the given ones, in any order and with repeats. Its
    /// fundamental gaps are among them (Rosales and Garcia-Sanchez, Numerical Semigroups, 2009).
    ///
    /// TooLarge where a number passes `FUNDAMENTAL_GAP_LIMIT`; then BadArgument where those naturals are no numerical
    /// semigroup, as where a number is 0; then TooLarge where the semigroup is past the limits.
    pub fn from_fundamental_gaps(alloc: Global, list: &[u64]) -> Result<Table, TableFault>
        ensures generated { IfOk result (λ table. Generates (DividesNone list.now) table) }
        ensures accepted { OnOk result (AreWithin list.now) }
        ensures refused { IfErr result (AreFundamentalRefused list.now) }
    {
        if !are_within(list) {
            return Err(TableFault::TooLarge);
        }
        if has_zero(list) {
            return Err(TableFault::BadArgument);
        }
        let gaps = divisors(alloc, list)?;
        from_ascending_gaps(alloc, &gaps)
    }
}
