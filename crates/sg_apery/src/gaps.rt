//! Semigroups by their gaps.

ghost use Rattle.std.specs.Prelude.{Contains, IfOk, IfErr};
ghost use Rattle.std.specs.List.Sorted.{IsStrictlyIncreasing};
ghost use Rattle.sg_defs.specs.Membership.{Generates};
ghost use Rattle.sg_small.specs.Sets.{IsOutside};
ghost use Rattle.sg_apery.specs.Conditions.{AreGapsRefused};

use crate::fault::TableFault;
use crate::small::{from_ascending, has_zero};
use crate::table::Table;
use sg_classes::sort_distinct;
use sg_small::{are_below_double, complement};
use std::alloc::Global;

/// The table of ascending gaps.
pub fn from_ascending_gaps(alloc: Global, gaps: &[u64]) -> Result<Table, TableFault>
    requires ascending { IsStrictlyIncreasing gaps.now }
    requires positive { Contains gaps.now 0 → ⊥ }
    ensures generated { IfOk result (λ table. Generates (IsOutside gaps.now) table) }
    ensures refused { IfErr result (AreGapsRefused gaps.now) }
{
    if !are_below_double(gaps) {
        return Err(TableFault::BadArgument);
    }
    let list = complement(alloc, gaps)?;
    from_ascending(alloc, &list)
}

impl Table {
    /// The numerical semigroup of the naturals other than the given ones, in any order and with repeats.
    ///
    /// BadArgument where those naturals are no numerical semigroup; TooLarge where it is past the limits.
    pub fn from_gaps(alloc: Global, list: &[u64]) -> Result<Table, TableFault>
        ensures generated { IfOk result (λ table. Generates (IsOutside list.now) table) }
        ensures refused { IfErr result (AreGapsRefused list.now) }
    {
        if has_zero(list) {
            return Err(TableFault::BadArgument);
        }
        let mut gaps = Vec::from_slice(alloc, list)?;
        sort_distinct(&mut gaps);
        from_ascending_gaps(alloc, &gaps)
    }
}
