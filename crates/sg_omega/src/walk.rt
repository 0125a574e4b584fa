//! One table for all members that lie in the Apery sets of the same generators.

ghost use Rattle.std.specs.Prelude.{◌≡◌, List, ◌+◌, ◌<◌, ◌≤◌, ◌^◌, ℕ, length, Contains, EachIndex, IfOk, slice_index};
ghost use Rattle.sg_omega.specs.Lengths.{AreGreatestMade, IsInAperySet};
ghost use Rattle.sg_omega.specs.Readings.{IsGreatestReading};

use crate::lengths::add_generator;
use crate::parts::{Parts, divided};
use crate::readings::greatest_entry;
use sg_apery::Table;
use std::alloc::{AllocError, Global};

/// A copy of a table in which vectors may use one generator more.
fn table_with(alloc: Global, table: &[u32], generator: usize) -> Result<Vec<u32>, AllocError>
    requires positive { 0 < generator }
    requires short { length table.now < 2 ^ 31 }
    requires bounded { EachIndex table.now (λ x. slice_index table.now x ≤ x + 1) }
    ensures long { IfOk result (λ more. length more.items ≡ length table.now) }
    ensures bounded { IfOk result (λ more. EachIndex more.items (λ x. slice_index more.items x ≤ x + 1)) }
    ensures lengths { IfOk result (λ more. (G : List ℕ) (v k : ℕ) → k < length G → slice_index G k ≡ generator → IsInAperySet G v generator → AreGreatestMade G v (k + 1) table.now → AreGreatestMade G v k more.items) }
{
    let mut more = Vec::from_slice(alloc, table)?;
    add_generator(&mut more, generator);
    Ok(more)
}

/// One more than the greatest length of a vector whose value is the sum of a wanted number and one of the values, and
/// which uses only generators in whose Apery sets that value lies; 0 where there is no such vector.
///
/// The values lie in the Apery sets of the same generators from `place` on, for which the table knows the lengths. They
/// are divided at each generator before, from the greatest down, so that all values share the tables that they can.
pub fn walk(
    alloc: Global,
    t: &Table,
    wanted: &[u64],
    table: &[u32],
    place: usize,
    values: Vec<u64>,
) -> Result<u32, AllocError>
    requires place { place ≤ length t.now }
    requires short { length table.now < 2 ^ 31 }
    requires bounded { EachIndex table.now (λ x. slice_index table.now x ≤ x + 1) }
    requires inside { (n v : ℕ) → Contains wanted.now n → Contains values.items v → n + v < length table.now }
    requires lengths { (v : ℕ) → Contains values.items v → AreGreatestMade t.now v place table.now }
    ensures { IfOk result (IsGreatestReading t.now wanted.now values.items) }
{
    if values.is_empty() {
        return Ok(0);
    }
    if place == 0 {
        return Ok(greatest_entry(table, wanted, &values));
    }
    let generator = t.generators().as_slice()[place - 1];
    let Parts { inside, outside } = divided(alloc, t, &values, generator)?;
    // Only the parts are kept on the way down.
    drop(values);
    let with = if inside.is_empty() {
        0
    } else {
        let more = table_with(alloc, table, generator as usize)?;
        walk(alloc, t, wanted, &more, place - 1, inside)?
    };
    let without = walk(alloc, t, wanted, table, place - 1, outside)?;
    Ok(with.max(without))
}
