//! Semigroups by their small elements: some members, and all numbers above the greatest of them.

ghost use Rattle.std.specs.Prelude.{◌↔◌, Contains, IfOk, OnOk, IfErr, IsTrue};
ghost use Rattle.sg_defs.specs.Membership.{Generates};
ghost use Rattle.sg_small.specs.Sets.{IsClosedSet, IsInSmall};
ghost use Rattle.sg_small.specs.Small.{AreSmallElements, HasGapBelowLast};
ghost use Rattle.sg_apery.specs.Conditions.{AreSmallAccepted, AreSmallRefused, IsClosedRefused};
ghost use Rattle.sg_apery.specs.Fit.{IsSizeFault};

use crate::fault::TableFault;
use crate::kunz::from_kunz;
use crate::table::Table;
use sg_classes::{APERY_ENTRY_LIMIT, MULTIPLICITY_LIMIT, sort_distinct};
use sg_small::{is_closed, least_list, least_positive, up_to_conductor};
use std::alloc::Global;

/// The table of a set that is closed under sums, by its elements up to the conductor.
fn from_closed(alloc: Global, list: &[u64]) -> Result<Table, TableFault>
    requires list { AreSmallElements list.now }
    requires closed { IsClosedSet (IsInSmall list.now) }
    requires gap { HasGapBelowLast list.now }
    ensures generated { IfOk result (λ table. Generates (IsInSmall list.now) table) }
    ensures refused { IfErr result (IsSizeFault (IsInSmall list.now)) }
{
    let multiplicity = least_positive(list);
    if multiplicity > MULTIPLICITY_LIMIT {
        return Err(TableFault::TooLarge);
    }
    let conductor = list[list.len() - 1];
    if conductor > APERY_ENTRY_LIMIT {
        return Err(TableFault::TooLarge);
    }
    let table = least_list(alloc, list, multiplicity)?;
    from_kunz(alloc, &table)
}

/// The table of a set that is closed under sums, by its elements up to some number from which on it has no gap.
pub fn from_members(alloc: Global, list: &[u64]) -> Result<Table, TableFault>
    requires list { AreSmallElements list.now }
    requires closed { IsClosedSet (IsInSmall list.now) }
    ensures generated { IfOk result (λ table. Generates (IsInSmall list.now) table) }
    ensures refused { IfErr result (IsSizeFault (IsInSmall list.now)) }
{
    from_closed(alloc, up_to_conductor(list))
}

/// The table of ascending small elements.
pub fn from_ascending(alloc: Global, list: &[u64]) -> Result<Table, TableFault>
    requires { AreSmallElements list.now }
    ensures generated { IfOk result (λ table. Generates (IsInSmall list.now) table) }
    ensures closed { OnOk result (IsClosedSet (IsInSmall list.now)) }
    ensures refused { IfErr result (IsClosedRefused (IsInSmall list.now)) }
{
    let elements = up_to_conductor(list);
    if !is_closed(alloc, elements)? {
        return Err(TableFault::BadArgument);
    }
    from_closed(alloc, elements)
}

/// Whether 0 is an entry.
pub fn has_zero(list: &[u64]) -> bool
    ensures { IsTrue result ↔ Contains list.now 0 }
{
    list.contains(&0)
}

impl Table {
    /// The numerical semigroup of the given numbers and of all naturals above the greatest, in any order and with
    /// repeats (Rosales and Garcia-Sanchez, Numerical Semigroups, 2009).
    ///
    /// BadArgument where none is given, 0 is not, or that set is not closed under sums; then TooLarge where the
    /// semigroup is past the limits.
    pub fn from_small_elements(alloc: Global, list: &[u64]) -> Result<Table, TableFault>
        ensures generated { IfOk result (λ table. Generates (IsInSmall list.now) table) }
        ensures accepted { OnOk result (AreSmallAccepted list.now) }
        ensures refused { IfErr result (AreSmallRefused list.now) }
    {
        if !has_zero(list) {
            return Err(TableFault::BadArgument);
        }
        let mut elements = Vec::from_slice(alloc, list)?;
        sort_distinct(&mut elements);
        from_ascending(alloc, &elements)
    }
}
