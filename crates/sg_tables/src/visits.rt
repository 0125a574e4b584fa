//! Many generators: the entries that they lead to, looked for from the least entry on.
//!
//! The least entry that waits is taken out of a queue, and generators are added to it. An entry that is lowered waits in
//! its turn, so that mostly each entry is the least of its class when it is taken out. A sum above the greatest entry
//! less the modulus lowers nothing, since two numbers of one class differ by a multiple of the modulus; and one above the
//! greatest generator that may be minimal shows of none that it is a sum.

ghost use Rattle.std.specs.Prelude.{◌≡◌, ◌+◌, ◌<◌, ◌≤◌, ℕ, length, sum, slice_index, OnOk};
ghost use Rattle.std.specs.BinaryHeap.{heap_len};
ghost use Rattle.sg_tables.specs.Found.{AreFound, AreGiven, IsUnmarked};

use crate::marks::is_unmarked;
use crate::sources::lead_from;
use sg_classes::greatest;
use std::alloc::{AllocError, Global};
use std::cmp::Reverse;
use std::collections::BinaryHeap;

/// The number above which no sum lowers an entry, or shows that a generator is one.
pub fn sum_bound(table: &[u64], summands: &[u64], generators: &[u64]) -> u64
    requires not_empty { 0 < length table.now }
    requires long { length summands.now ≡ length table.now }
    ensures top { (i : ℕ) → i < length table.now → slice_index table.now i ≤ result + length table.now }
    ensures unmarked { (j : ℕ) → j < length generators.now → IsUnmarked table.now summands.now (slice_index generators.now j) → slice_index generators.now j ≤ result }
{
    let mut bound = greatest(table).saturating_sub(table.len() as u64);
    for generator in generators {
        if *generator > bound && is_unmarked(table, summands, *generator) {
            bound = *generator;
        }
    }
    bound
}

/// The bound for sums, and how many were tried since it was found.
#[derive(Clone, Copy)]
struct Tried {
    bound: u64,
    sums: u64,
}

/// The bound is found anew where so many sums were tried that this costs little beside them.
fn renewed(table: &[u64], summands: &[u64], generators: &[u64], before: Tried, sums: usize) -> Tried
    requires not_empty { 0 < length table.now }
    requires long { length summands.now ≡ length table.now }
{
    let sums = before.sums.saturating_add(sums as u64).saturating_add(1);
    if sums / 4 < table.len() as u64 {
        return Tried {
            bound: before.bound,
            sums,
        };
    }
    Tried {
        bound: sum_bound(table, summands, generators),
        sums: 0,
    }
}

/// Adds generators to a number that waited, where it is an entry still, and says how many.
fn visit(
    table: &mut [u64],
    summands: &mut [u64],
    waiting: &mut BinaryHeap<Reverse<u64>>,
    generators: &[u64],
    tops: &[u64],
    step: u64,
    entry: u64,
    bound: u64,
) -> Result<usize, AllocError>
    requires given { AreGiven generators.now step tops.now }
    requires found { AreFound generators.now table.old summands.old }
    ensures found { OnOk result (AreFound generators.now table.new summands.new) }
    ensures less { OnOk result (sum table.new + heap_len waiting.new ≤ sum table.old + heap_len waiting.old) }
{
    let from = (entry % table.len() as u64) as usize;
    if from == 0 || table[from] != entry {
        return Ok(0);
    }
    let led = lead_from(
        table, summands, waiting, generators, tops, step, from, bound,
    )?;
    Ok(led.sums)
}

/// Takes out what waits, from the least on, while a sum from there is within the bound.
fn visit_all(
    table: &mut [u64],
    summands: &mut [u64],
    waiting: &mut BinaryHeap<Reverse<u64>>,
    generators: &[u64],
    tops: &[u64],
    step: u64,
) -> Result<(), AllocError>
    requires given { AreGiven generators.now step tops.now }
    requires found { AreFound generators.now table.old summands.old }
    ensures { OnOk result (AreFound generators.now table.new summands.new) }
{
    let mut tried = Tried {
        bound: sum_bound(table, summands, generators),
        sums: 0,
    };
    'visits: while let Some(Reverse(entry)) = waiting.pop() {
        if tried.bound.saturating_sub(entry) < generators[0] {
            break;
        }
        let sums = visit(
            table,
            summands,
            waiting,
            generators,
            tops,
            step,
            entry,
            tried.bound,
        )?;
        tried = renewed(table, summands, generators, tried, sums);
    }
    Ok(())
}

/// All numbers, waiting.
fn queue(alloc: Global, generators: &[u64]) -> Result<BinaryHeap<Reverse<u64>>, AllocError> {
    let mut waiting = BinaryHeap::new(alloc);
    for generator in generators {
        waiting.push(Reverse(*generator))?;
    }
    Ok(waiting)
}

/// Lowers entries to the sums that the generators lead to, from the entries that are the generators themselves.
pub fn visit_from(
    alloc: Global,
    table: &mut [u64],
    summands: &mut [u64],
    generators: &[u64],
    tops: &[u64],
    step: u64,
) -> Result<(), AllocError>
    requires given { AreGiven generators.now step tops.now }
    requires found { AreFound generators.now table.old summands.old }
    ensures { OnOk result (AreFound generators.now table.new summands.new) }
{
    let mut waiting = queue(alloc, generators)?;
    visit_all(table, summands, &mut waiting, generators, tops, step)
}
