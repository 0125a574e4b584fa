//! Rounds over all classes that show that many generators lower no entry any more.

ghost use Rattle.std.specs.Prelude.{◌<◌, length, sum, IsTrue, IsFalse, IfOk, OnOk};
ghost use Rattle.sg_tables.specs.Found.{AreFound, AreGiven, AreSettled};

use crate::sources::lead_from;
use crate::visits::sum_bound;
use std::alloc::{AllocError, Global};
use std::cmp::Reverse;
use std::collections::BinaryHeap;

/// Adds generators to each entry, and says whether one was lowered.
fn close_round(
    table: &mut [u64],
    summands: &mut [u64],
    waiting: &mut BinaryHeap<Reverse<u64>>,
    generators: &[u64],
    tops: &[u64],
    step: u64,
) -> Result<bool, AllocError>
    requires given { AreGiven generators.now step tops.now }
    requires found { AreFound generators.now table.old summands.old }
    ensures found { OnOk result (AreFound generators.now table.new summands.new) }
    ensures lower { IfOk result (λ lowered. IsTrue lowered → sum table.new < sum table.old) }
    ensures settled { IfOk result (λ lowered. IsFalse lowered → AreSettled generators.now table.new summands.new) }
{
    let bound = sum_bound(table, summands, generators);
    let mut lowered = false;
    for class in 1..table.len() {
        let led = lead_from(
            table, summands, waiting, generators, tops, step, class, bound,
        )?;
        if led.lowered {
            lowered = true;
        }
    }
    Ok(lowered)
}

/// Makes rounds until one lowers nothing.
pub fn close(
    alloc: Global,
    table: &mut [u64],
    summands: &mut [u64],
    generators: &[u64],
    tops: &[u64],
    step: u64,
) -> Result<(), AllocError>
    requires given { AreGiven generators.now step tops.now }
    requires found { AreFound generators.now table.old summands.old }
    ensures found { OnOk result (AreFound generators.now table.new summands.new) }
    ensures settled { OnOk result (AreSettled generators.now table.new summands.new) }
{
    let mut waiting = BinaryHeap::new(alloc);
    'rounds: while close_round(table, summands, &mut waiting, generators, tops, step)? {}
    Ok(())
}
