//! The ideal of a table.

ghost use Rattle.std.specs.Prelude.{◌^◌, pos, neg_ℤ, ◌≤ℤ◌, IfOk, IfErr};
ghost use Rattle.sg_ideal.specs.Classes.{IsClosedTable, IsFrom, IsIdealTable};
ghost use Rattle.sg_ideal.specs.Faults.{IsSizeFault};
ghost use Rattle.sg_ideal.specs.Value.{IsIdealOf};

use crate::classes::{least_entry, rebased};
use crate::fault::IdealFault;
use crate::given::is_small;
use crate::heads::{heads, raise};
use crate::ideal::Ideal;
use sg_nat::Nats;
use std::alloc::Global;

/// The ideal whose members lie above its least, `base`, by the numbers of a table.
///
/// TooLarge where a minimal generator is past the limit, as `base` may be, and no other fault.
pub(crate) fn from_table(
    alloc: Global,
    ambient: &[u64],
    base: i64,
    entries: Vec<u64>,
) -> Result<Ideal, IdealFault>
    requires table { IsIdealTable ambient.now entries.items }
    ensures made { IfOk result (IsIdealOf ambient.now (IsFrom base entries.items)) }
    ensures refused { IfErr result (IsSizeFault ambient.now (IsFrom base entries.items)) }
{
    if !is_small(base) {
        return Err(IdealFault::TooLarge);
    }
    let numbers = heads(alloc, ambient, &entries)?;
    let generators = raise(alloc, base, &numbers)?;
    let ambient = Nats::from_slice(alloc, ambient)?;
    Ok(Ideal::from_parts(ambient, generators, entries))
}

/// The same of a table that need not tell 0.
pub(crate) fn from_classes(
    alloc: Global,
    ambient: &[u64],
    base: i64,
    entries: &[u64],
) -> Result<Ideal, IdealFault>
    requires table { IsClosedTable ambient.now entries.now }
    requires low { neg_ℤ (pos (2 ^ 42)) ≤ℤ base }
    requires high { base ≤ℤ pos (2 ^ 42) }
    ensures made { IfOk result (IsIdealOf ambient.now (IsFrom base entries.now)) }
    ensures refused { IfErr result (IsSizeFault ambient.now (IsFrom base entries.now)) }
{
    let least = least_entry(entries);
    let list = rebased(alloc, entries, least)?;
    from_table(alloc, ambient, base + least as i64, list)
}
