//! Reading a table of lengths.

ghost use Rattle.std.specs.Prelude.{◌+◌, ◌<◌, ◌^◌, ℕ, length, Contains, slice_index, ◌↔◌};
ghost use Rattle.sg_omega.specs.Readings.{IsRead};

/// The greatest entry at the sum of `v` and a wanted number.
fn greatest_at(table: &[u32], wanted: &[u64], v: u64) -> u32
    requires short { length table.now < 2 ^ 31 }
    requires inside { (n : ℕ) → Contains wanted.now n → n + v < length table.now }
    ensures { (l : ℕ) → (l < result) ↔ ((n : ℕ) × Contains wanted.now n × (l < slice_index table.now (n + v))) }
{
    let mut greatest = 0u32;
    for n in wanted {
        greatest = greatest.max(table[(*n + v) as usize]);
    }
    greatest
}

/// The greatest entry at the sum of a value and a wanted number.
pub fn greatest_entry(table: &[u32], wanted: &[u64], values: &[u64]) -> u32
    requires short { length table.now < 2 ^ 31 }
    requires inside { (n v : ℕ) → Contains wanted.now n → Contains values.now v → n + v < length table.now }
    ensures { (l : ℕ) → (l < result) ↔ IsRead table.now wanted.now values.now l }
{
    let mut greatest = 0u32;
    for v in values {
        greatest = greatest.max(greatest_at(table, wanted, *v));
    }
    greatest
}
