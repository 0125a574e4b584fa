//! A generator that leads from an entry to the entry of another class.
//!
//! Beside the table there is for each class a generator that leads to its entry from a member above 0, or 0 where none
//! is known. So each entry is a generator that no sum is known to make, or a sum; and a greater generator that leads to
//! the same entry makes it needless to try a lesser one from there.

ghost use Rattle.std.specs.Prelude.{◌≡◌, ◌+◌, ◌<◌, ◌≤◌, ℕ, List, length, sum, slice_index, Contains, EachIndex, IsTrue, IsFalse, IsSome, IsNone, IfOk, OnOk};
ghost use Rattle.std.specs.BinaryHeap.{heap_len};
ghost use Rattle.std.specs.List.Sorted.{IsStrictlyIncreasing};
ghost use Rattle.sg_tables.specs.Found.{AreFound, IsMarkedMore, IsTold};

use crate::circles::next_class;
use crate::counts::count_up_to;
use std::alloc::AllocError;
use std::cmp::Reverse;
use std::collections::BinaryHeap;

/// Whether an entry was lowered, and how many sums were tried.
#[derive(Clone, Copy)]
pub struct Led {
    pub lowered: bool,
    pub sums: usize,
}

/// Lowers the entry of the class that a generator leads to from class `from`, and gives the new entry. Where the sum is
/// the entry already, it is marked as one.
pub fn lead(table: &mut [u64], summands: &mut [u64], generator: u64, from: usize) -> Option<u64>
    requires after { 0 < from }
    requires from { from < length table.old }
    requires long { length summands.old ≡ length table.old }
    requires positive { 0 < generator }
    ensures found { (G : List ℕ) → Contains G generator → AreFound G table.old summands.old → AreFound G table.new summands.new }
    ensures more { IsMarkedMore summands.old summands.new }
    ensures lower { IsSome result → sum table.new < sum table.old }
    ensures same { IsNone result → table.new ≡ table.old }
    ensures told { IsNone result → IsTold table.new summands.new generator from }
{
    let step = (generator % table.len() as u64) as usize;
    let target = next_class(from, step, table.len());
    let entry = table[target];
    let sum = table[from].checked_add(generator)?;
    if sum > entry {
        return None;
    }
    if sum < entry {
        table[target] = sum;
        summands[target] = generator;
        return Some(sum);
    }
    if summands[target] == 0 {
        summands[target] = generator;
    }
    None
}

/// The same, and an entry that was lowered waits.
fn lead_and_queue(
    table: &mut [u64],
    summands: &mut [u64],
    waiting: &mut BinaryHeap<Reverse<u64>>,
    generator: u64,
    from: usize,
) -> Result<bool, AllocError>
    requires after { 0 < from }
    requires from { from < length table.old }
    requires long { length summands.old ≡ length table.old }
    requires positive { 0 < generator }
    ensures found { OnOk result ((G : List ℕ) → Contains G generator → AreFound G table.old summands.old → AreFound G table.new summands.new) }
    ensures more { OnOk result (IsMarkedMore summands.old summands.new) }
    ensures less { OnOk result (sum table.new + heap_len waiting.new ≤ sum table.old + heap_len waiting.old) }
    ensures lower { IfOk result (λ lowered. IsTrue lowered → sum table.new < sum table.old) }
    ensures same { IfOk result (λ lowered. IsFalse lowered → table.new ≡ table.old) }
    ensures told { IfOk result (λ lowered. IsFalse lowered → IsTold table.new summands.new generator from) }
{
    let Some(sum) = lead(table, summands, generator, from) else {
        return Ok(false);
    };
    waiting.push(Reverse(sum))?;
    Ok(true)
}

/// The same for each generator of an ascending list that is between two numbers.
pub fn lead_between(
    table: &mut [u64],
    summands: &mut [u64],
    waiting: &mut BinaryHeap<Reverse<u64>>,
    list: &[u64],
    from: usize,
    least: u64,
    most: u64,
) -> Result<Led, AllocError>
    requires after { 0 < from }
    requires from { from < length table.old }
    requires long { length summands.old ≡ length table.old }
    requires ascending { IsStrictlyIncreasing list.now }
    requires positive { EachIndex list.now (λ k. 0 < slice_index list.now k) }
    ensures found { OnOk result ((G : List ℕ) → ((k : ℕ) → k < length list.now → Contains G (slice_index list.now k)) → AreFound G table.old summands.old → AreFound G table.new summands.new) }
    ensures more { OnOk result (IsMarkedMore summands.old summands.new) }
    ensures less { OnOk result (sum table.new + heap_len waiting.new ≤ sum table.old + heap_len waiting.old) }
    ensures lower { IfOk result (λ led. IsTrue led.lowered → sum table.new < sum table.old) }
    ensures same { IfOk result (λ led. IsFalse led.lowered → table.new ≡ table.old) }
    ensures told { IfOk result (λ led. IsFalse led.lowered → (k : ℕ) → k < length list.now → least ≤ slice_index list.now k → slice_index list.now k ≤ most → IsTold table.new summands.new (slice_index list.now k) from) }
{
    let low = count_up_to(list, least.saturating_sub(1));
    let high = count_up_to(list, most);
    let mut lowered = false;
    for which in low..high {
        if lead_and_queue(table, summands, waiting, list[which], from)? {
            lowered = true;
        }
    }
    let sums = high.saturating_sub(low);
    Ok(Led { lowered, sums })
}
