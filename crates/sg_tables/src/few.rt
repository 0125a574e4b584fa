//! The Apery list and the minimal generators of few numbers: each that no lesser ones make is followed round once.

ghost use Rattle.std.specs.Prelude.{◌≡◌, ◌<◌, ◌≤◌, length, EachIndex, slice_index, OnOk};
ghost use Rattle.std.specs.List.Sorted.{IsStrictlyIncreasing};
ghost use Rattle.sg_defs.specs.Membership.{IsNumericalSemigroup, IsMember, Generates};
ghost use Rattle.sg_classes.specs.Entries.{AreSmall};
ghost use Rattle.sg_classes.specs.Table.{IsTable};
ghost use Rattle.sg_tables.specs.Few.{IsTableOf, IsTaken};

use crate::circles::go_round;
use crate::spread::UNREACHED;
use sg_classes::{GENERATOR_LIMIT, MULTIPLICITY_LIMIT, is_above_entry};
use sg_nat::Nats;
use std::alloc::AllocError;

/// Lists a number and follows it round, where it is no member yet. It is one exactly where the entry of its class does
/// not exceed it.
fn take(table: &mut [u64], minimal: &mut Nats, generator: u64) -> Result<(), AllocError>
    requires table { IsTableOf minimal.old table.old }
    requires short { length table.old ≤ MULTIPLICITY_LIMIT }
    requires positive { 0 < generator }
    requires small { generator < GENERATOR_LIMIT }
    ensures table { OnOk result (IsTableOf minimal.new table.new) }
    ensures taken { OnOk result (IsTaken minimal.old generator minimal.new) }
{
    if is_above_entry(table, generator) {
        return Ok(());
    }
    minimal.push(generator)?;
    go_round(table, generator);
    Ok(())
}

/// Makes a table without members the Apery list of ascending generators modulo the least of them, and lists those that
/// are minimal.
pub fn take_all(table: &mut [u64], minimal: &mut Nats, generators: &[u64]) -> Result<(), AllocError>
    requires ascending { IsStrictlyIncreasing generators.now }
    requires semigroup { IsNumericalSemigroup generators.now }
    requires small { AreSmall generators.now }
    requires long { length table.old ≡ slice_index generators.now 0 }
    requires short { length table.old ≤ MULTIPLICITY_LIMIT }
    requires unreached { EachIndex table.old (λ k. slice_index table.old k ≡ UNREACHED) }
    requires empty { length minimal.old ≡ 0 }
    ensures table { OnOk result (IsTable generators.now table.new) }
    ensures minimal { OnOk result (Generates (IsMember generators.now) minimal.new) }
{
    table[0] = 0;
    minimal.push(generators[0])?;
    for place in 1..generators.len() {
        take(table, minimal, generators[place])?;
    }
    Ok(())
}
