//! All generators that are tried from one entry.
//!
//! Left out are the generators whose sum with the entry is above a bound, and those for which a greater generator leads
//! to the same sum from a member above 0. That is so where a greater one leads to the entry itself, and where a step
//! leads down from the entry to a member and up from the generator to another.

ghost use Rattle.std.specs.Prelude.{◌≡◌, ◌+◌, ◌-◌, ◌<◌, ◌≤◌, ℕ, List, length, sum, slice_index, Contains, IsTrue, IsFalse, IfOk, OnOk};
ghost use Rattle.std.specs.BinaryHeap.{heap_len};
ghost use Rattle.sg_classes.specs.Classes.{IsAboveEntry};
ghost use Rattle.sg_tables.specs.Found.{AreFound, AreGiven, IsMarkedMore, IsPassed, IsSettled};

use crate::leads::{Led, lead_between};
use crate::spread::UNREACHED;
use sg_classes::is_above_entry;
use std::alloc::AllocError;
use std::cmp::Reverse;
use std::collections::BinaryHeap;

/// The generator that is known to lead to the entry of a class, or the entry where it is a generator. Lesser ones are
/// needless there.
fn least_needed(table: &[u64], summands: &[u64], from: usize) -> u64
    requires after { 0 < from }
    requires from { from < length table.now }
    requires long { length summands.now ≡ length table.now }
    ensures { (G : List ℕ) → AreFound G table.now summands.now → (g : ℕ) → Contains G g → 0 < g → g < result → slice_index table.now from < UNREACHED → IsPassed G (slice_index table.now from) g }
{
    if summands[from] == 0 {
        table[from]
    } else {
        summands[from]
    }
}

/// Whether a step leads down from the entry of a class to a number above 0 that is at least the entry of its class.
fn is_stepped(table: &[u64], step: u64, from: usize) -> bool
    requires { from < length table.now }
    ensures below { IsTrue result → step < slice_index table.now from }
    ensures member { IsTrue result → IsAboveEntry table.now (slice_index table.now from - step) }
{
    let entry = table[from];
    step < entry && is_above_entry(table, entry - step)
}

/// Lowers the entries of the classes that generators lead to from class `from`, for sums up to a bound.
pub fn lead_from(
    table: &mut [u64],
    summands: &mut [u64],
    waiting: &mut BinaryHeap<Reverse<u64>>,
    generators: &[u64],
    tops: &[u64],
    step: u64,
    from: usize,
    bound: u64,
) -> Result<Led, AllocError>
    requires after { 0 < from }
    requires from { from < length table.old }
    requires given { AreGiven generators.now step tops.now }
    requires found { AreFound generators.now table.old summands.old }
    ensures found { OnOk result (AreFound generators.now table.new summands.new) }
    ensures more { OnOk result (IsMarkedMore summands.old summands.new) }
    ensures less { OnOk result (sum table.new + heap_len waiting.new ≤ sum table.old + heap_len waiting.old) }
    ensures lower { IfOk result (λ led. IsTrue led.lowered → sum table.new < sum table.old) }
    ensures same { IfOk result (λ led. IsFalse led.lowered → table.new ≡ table.old) }
    ensures settled { IfOk result (λ led. IsFalse led.lowered → IsSettled generators.now table.new summands.new bound from) }
{
    let most = bound.saturating_sub(table[from]);
    if most < generators[0] {
        return Ok(Led {
            lowered: false,
            sums: 0,
        });
    }
    let least = least_needed(table, summands, from);
    if is_stepped(table, step, from) {
        let led = lead_between(table, summands, waiting, tops, from, least, most)?;
        return Ok(led);
    }
    let led = lead_between(table, summands, waiting, generators, from, least, most)?;
    Ok(led)
}
