//! The least number of coins that makes each sum.

ghost use Rattle.std.specs.Prelude.{◌≡◌, ◌+◌, ◌<◌, ◌≤◌, ◌∷◌, ℕ, List, EachIndex, slice_index, length, All, IfOk};
ghost use Rattle.sg_factor.specs.Coins.{AreLeastCounts};

use crate::limits::LENGTH_LIMIT;
use std::alloc::{AllocError, Global};

/// The entry of a sum that no coins make. It is more than the number of coins of any sum in a table.
pub const NO_SUM: u32 = 0x8000_0000;

/// Lowers the entries of a table to the least numbers of coins where one coin more is there.
fn add_coin(table: &mut [u32], coin: usize)
    requires positive { 0 < coin }
    requires bounded { EachIndex table.old (λ x. slice_index table.old x ≤ NO_SUM) }
    ensures bounded { EachIndex table.new (λ x. slice_index table.new x ≤ NO_SUM) }
    ensures counts { (D : List ℕ) → AreLeastCounts D table.old → AreLeastCounts (coin ∷ D) table.new }
{
    for sum in coin..table.len() {
        let with = table[sum - coin] + 1;
        if with < table[sum] {
            table[sum] = with;
        }
    }
}

/// Makes an empty table that of the least numbers of coins: coin by coin, each as often as wanted.
fn fill(table: &mut [u32], coins: &[u64])
    requires positive { All (λ coin. 1 ≤ coin) coins.now }
    requires not_empty { 0 < length table.old }
    requires empty { EachIndex table.old (λ x. slice_index table.old x ≡ NO_SUM) }
    ensures { AreLeastCounts coins.now table.new }
{
    table[0] = 0;
    for step in 0..coins.len() {
        add_coin(table, coins[coins.len() - 1 - step] as usize);
    }
}

/// The least number of coins for each sum up to `top`.
pub fn coin_table(alloc: Global, coins: &[u64], top: u64) -> Result<Vec<u32>, AllocError>
    requires positive { All (λ coin. 1 ≤ coin) coins.now }
    requires small { top ≤ LENGTH_LIMIT }
    ensures counts { IfOk result (λ table. AreLeastCounts coins.now table.items) }
    ensures long { IfOk result (λ table. length table.items ≡ top + 1) }
{
    let mut table = vec![in alloc; NO_SUM; top as usize + 1]?;
    fill(&mut table, coins);
    Ok(table)
}
