//! The Apery list and the minimal generators of given numbers.

ghost use Rattle.std.specs.Prelude.{◌≡◌, ◌<◌, ◌≤◌, length, vec_len, EachIndex, slice_index, IfOk, OnOk};
ghost use Rattle.std.specs.List.Sorted.{IsStrictlyIncreasing};
ghost use Rattle.sg_defs.specs.Membership.{IsNumericalSemigroup, IsMember, Generates};
ghost use Rattle.sg_classes.specs.Entries.{AreSmall};
ghost use Rattle.sg_classes.specs.Table.{IsTable};
ghost use Rattle.sg_tables.specs.Found.{AreFound, AreSettled};

use crate::closing::close;
use crate::few::take_all;
use crate::marks::list_unmarked;
use crate::spread::UNREACHED;
use crate::steps::{choose_step, tops_of};
use crate::visits::visit_from;
use sg_classes::{MULTIPLICITY_LIMIT, lower_all};
use sg_nat::Nats;
use std::alloc::{AllocError, Global};

/// So many generators are followed round one by one.
const FEW: usize = 20;

/// Lowers the entries to the sums that the generators lead to, until none is lowered, and marks those that are sums.
pub fn settle(
    alloc: Global,
    table: &mut [u64],
    summands: &mut [u64],
    generators: &[u64],
) -> Result<(), AllocError>
    requires semigroup { IsNumericalSemigroup generators.now }
    requires ascending { IsStrictlyIncreasing generators.now }
    requires found { AreFound generators.now table.old summands.old }
    ensures found { OnOk result (AreFound generators.now table.new summands.new) }
    ensures settled { OnOk result (AreSettled generators.now table.new summands.new) }
{
    let step = choose_step(generators);
    let tops = tops_of(alloc, generators, step)?;
    visit_from(alloc, table, summands, generators, &tops, step)?;
    close(alloc, table, summands, generators, &tops, step)
}

/// Makes a table without members the Apery list of ascending generators modulo the least of them, and marks the entries
/// that are sums of two members above 0.
fn fill(
    alloc: Global,
    table: &mut [u64],
    summands: &mut [u64],
    generators: &[u64],
) -> Result<(), AllocError>
    requires ascending { IsStrictlyIncreasing generators.now }
    requires semigroup { IsNumericalSemigroup generators.now }
    requires small { AreSmall generators.now }
    requires long { length table.old ≡ slice_index generators.now 0 }
    requires short { length table.old ≤ MULTIPLICITY_LIMIT }
    requires unreached { EachIndex table.old (λ k. slice_index table.old k ≡ UNREACHED) }
    requires unmarked { EachIndex summands.old (λ k. slice_index summands.old k ≡ 0) }
    requires summands { length summands.old ≡ length table.old }
    ensures table { OnOk result (IsTable generators.now table.new) }
    ensures found { OnOk result (AreFound generators.now table.new summands.new) }
    ensures settled { OnOk result (AreSettled generators.now table.new summands.new) }
{
    table[0] = 0;
    lower_all(table, generators);
    settle(alloc, table, summands, generators)?;
    Ok(())
}

/// Makes a table without members the Apery list of ascending generators modulo the least of them, and lists those that
/// are minimal.
fn fill_and_list(
    alloc: Global,
    table: &mut [u64],
    minimal: &mut Nats,
    generators: &[u64],
) -> Result<(), AllocError>
    requires ascending { IsStrictlyIncreasing generators.now }
    requires semigroup { IsNumericalSemigroup generators.now }
    requires small { AreSmall generators.now }
    requires long { length table.old ≡ slice_index generators.now 0 }
    requires short { length table.old ≤ MULTIPLICITY_LIMIT }
    requires unreached { EachIndex table.old (λ k. slice_index table.old k ≡ UNREACHED) }
    requires empty { length minimal.old ≡ 0 }
    ensures table { OnOk result (IsTable generators.now table.new) }
    ensures minimal { OnOk result (Generates (IsMember generators.now) minimal.new) }
{
    if generators.len() <= FEW {
        return take_all(table, minimal, generators);
    }
    let mut summands = vec![in alloc; 0; table.len()]?;
    fill(alloc, table, &mut summands, generators)?;
    list_unmarked(table, &summands, minimal, generators)
}

/// The least member in each residue class modulo the least of ascending generators. Those that are minimal are put into
/// a list that was empty.
pub fn apery_list(
    alloc: Global,
    generators: &[u64],
    minimal: &mut Nats,
) -> Result<Vec<u64>, AllocError>
    requires ascending { IsStrictlyIncreasing generators.now }
    requires semigroup { IsNumericalSemigroup generators.now }
    requires small { AreSmall generators.now }
    requires short { slice_index generators.now 0 ≤ MULTIPLICITY_LIMIT }
    requires empty { length minimal.old ≡ 0 }
    ensures table { IfOk result (λ t. IsTable generators.now t.items) }
    ensures length { IfOk result (λ t. vec_len t ≡ slice_index generators.now 0) }
    ensures minimal { OnOk result (Generates (IsMember generators.now) minimal.new) }
{
    let mut table = vec![in alloc; UNREACHED; generators[0] as usize]?;
    fill_and_list(alloc, &mut table, minimal, generators)?;
    Ok(table)
}

/// The same of generators that are known to be minimal.
pub fn apery_list_of_minimal(alloc: Global, generators: &[u64]) -> Result<Vec<u64>, AllocError>
    requires ascending { IsStrictlyIncreasing generators.now }
    requires semigroup { IsNumericalSemigroup generators.now }
    requires small { AreSmall generators.now }
    requires short { slice_index generators.now 0 ≤ MULTIPLICITY_LIMIT }
    ensures table { IfOk result (λ t. IsTable generators.now t.items) }
    ensures length { IfOk result (λ t. vec_len t ≡ slice_index generators.now 0) }
{
    let mut minimal = Nats::new(alloc);
    apery_list(alloc, generators, &mut minimal)
}
