//! How many entries of an ascending list are at most a number.

ghost use Rattle.std.specs.Prelude.{◌<◌, ◌≤◌, ℕ, length, slice_index};
ghost use Rattle.std.specs.List.Sorted.{IsStrictlyIncreasing};

/// How many of the ascending entries are at most a number, by halves.
pub fn count_up_to(entries: &[u64], most: u64) -> usize
    requires { IsStrictlyIncreasing entries.now }
    ensures inside { result ≤ length entries.now }
    ensures before { (k : ℕ) → k < result → slice_index entries.now k ≤ most }
    ensures after { (k : ℕ) → result ≤ k → k < length entries.now → most < slice_index entries.now k }
{
    let mut low = 0;
    let mut high = entries.len();
    while low < high {
        let middle = low + (high - low) / 2;
        if entries[middle] > most {
            high = middle;
        } else {
            low = middle + 1;
        }
    }
    high
}
