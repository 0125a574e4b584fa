//! Sums of multiples of some parts.

ghost use Rattle.std.specs.Prelude.{◌≡◌, ◌<◌, ◌≤◌, ◌^◌, ◌∷◌, ℕ, List, All, EachIndex, IfOk, IsTrue, ◌↔◌, length, slice_index_or, false};
ghost use Rattle.sg_defs.specs.Membership.{IsMember};
ghost use Rattle.sg_glue.specs.Sums.{TellsSums};

use std::alloc::{AllocError, Global};

/// Marks the sums where one part more is there.
fn add_part(table: &mut [bool], part: usize)
    requires { 0 < part }
    ensures long { length table.new ≡ length table.old }
    ensures sums { (D : List ℕ) → TellsSums D table.old → TellsSums (part ∷ D) table.new }
{
    for sum in part..table.len() {
        let with = table[sum - part];
        if with {
            table[sum] = true;
        }
    }
}

/// Marks the sums in a table where nothing is marked: part by part, each as often as wanted.
fn fill(table: &mut [bool], parts: &[u64])
    requires positive { All (λ part. 1 ≤ part) parts.now }
    requires not_empty { 0 < length table.old }
    requires empty { EachIndex table.old (λ x. slice_index_or table.old x false ≡ false) }
    ensures long { length table.new ≡ length table.old }
    ensures sums { TellsSums parts.now table.new }
{
    table[0] = true;
    for step in 0..parts.len() {
        add_part(table, parts[parts.len() - 1 - step] as usize);
    }
}

/// Whether a number is a sum of multiples of the parts. It takes memory for as many marks as the number says.
pub fn is_sum(alloc: Global, parts: &[u64], n: u64) -> Result<bool, AllocError>
    requires positive { All (λ part. 1 ≤ part) parts.now }
    requires small { n < 2 ^ 62 }
    ensures { IfOk result (λ holds. IsTrue holds ↔ IsMember parts.now n) }
{
    let mut table = vec![in alloc; false; n as usize + 1]?;
    fill(&mut table, parts);
    Ok(table[n as usize])
}
