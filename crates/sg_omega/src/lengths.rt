//! The greatest length of a vector of each value.

ghost use Rattle.std.specs.Prelude.{◌≡◌, ◌+◌, ◌<◌, ◌≤◌, ◌^◌, ℕ, List, EachIndex, IfOk, length, slice_index};
ghost use Rattle.sg_omega.specs.Lengths.{AreGreatestMade, IsInAperySet};

use std::alloc::{AllocError, Global};

/// The table up to a number where vectors use no generator: 1 at 0, and 0 elsewhere.
pub fn start_table(alloc: Global, top: u64) -> Result<Vec<u32>, AllocError>
    requires { top < 2 ^ 30 }
    ensures long { IfOk result (λ table. length table.items ≡ top + 1) }
    ensures bounded { IfOk result (λ table. EachIndex table.items (λ x. slice_index table.items x ≤ x + 1)) }
    ensures lengths { IfOk result (λ table. (G : List ℕ) (v : ℕ) → AreGreatestMade G v (length G) table.items) }
{
    let mut table = vec![in alloc; 0u32; top as usize + 1]?;
    table[0] = 1;
    Ok(table)
}

/// Raises the entries of a table to the greatest lengths where vectors may use one generator more. An entry is 0 where
/// no vector has that value, and else one more than a length.
pub fn add_generator(table: &mut [u32], generator: usize)
    requires positive { 0 < generator }
    requires short { length table.old < 2 ^ 31 }
    requires bounded { EachIndex table.old (λ x. slice_index table.old x ≤ x + 1) }
    ensures bounded { EachIndex table.new (λ x. slice_index table.new x ≤ x + 1) }
    ensures lengths { (G : List ℕ) (v k : ℕ) → k < length G → slice_index G k ≡ generator → IsInAperySet G v generator → AreGreatestMade G v (k + 1) table.old → AreGreatestMade G v k table.new }
{
    for sum in generator..table.len() {
        let before = table[sum - generator];
        table[sum] = table[sum].max(before + before.min(1));
    }
}
