//! The minimal generators, read off a table in which sums are marked.

ghost use Rattle.std.specs.Prelude.{◌≡◌, ◌<◌, length, slice_index, IsTrue, ◌↔◌, OnOk};
ghost use Rattle.sg_defs.specs.Membership.{IsMember, IsNumericalSemigroup, Generates};
ghost use Rattle.std.specs.List.Sorted.{IsStrictlyIncreasing};
ghost use Rattle.sg_classes.specs.Table.{IsTable};
ghost use Rattle.sg_tables.specs.Found.{AreFound, AreSettled, IsUnmarked};

use sg_nat::Nats;
use std::alloc::AllocError;

/// Whether a number is the entry of its class, and not known to be a sum.
pub fn is_unmarked(table: &[u64], summands: &[u64], number: u64) -> bool
    requires not_empty { 0 < length table.now }
    requires long { length summands.now ≡ length table.now }
    ensures { IsTrue result ↔ IsUnmarked table.now summands.now number }
{
    let class = (number % table.len() as u64) as usize;
    table[class] == number && summands[class] == 0
}

/// Lists the least generator, and the others that are no sums.
pub fn list_unmarked(
    table: &[u64],
    summands: &[u64],
    minimal: &mut Nats,
    generators: &[u64],
) -> Result<(), AllocError>
    requires table { IsTable generators.now table.now }
    requires found { AreFound generators.now table.now summands.now }
    requires settled { AreSettled generators.now table.now summands.now }
    requires ascending { IsStrictlyIncreasing generators.now }
    requires multiplicity { length table.now ≡ slice_index generators.now 0 }
    requires empty { length minimal.old ≡ 0 }
    ensures { OnOk result (Generates (IsMember generators.now) minimal.new) }
{
    minimal.push(generators[0])?;
    for place in 1..generators.len() {
        if is_unmarked(table, summands, generators[place]) {
            minimal.push(generators[place])?;
        }
    }
    Ok(())
}
