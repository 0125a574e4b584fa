//! The nearest vector with a positive place.

ghost use Rattle.std.specs.Prelude.{◌≡◌, ◌<◌, ◌≤◌, ◌^◌, ◌↔◌, ℕ, [], length, sum, slice_index, slice_index_or};
ghost use Rattle.sg_tame.specs.Nearest.{HavePositive, IsLeastFrom, IsNearRow, IsNearVector};

use sg_nat::{Nats, distance};

/// More than the distance of any two vectors.
pub const FAR: u64 = u64::MAX;

/// The distance of two vectors, and `FAR` where the second has 0 at the place.
fn distance_at(from: &[u64], to: &[u64], place: usize) -> u64
    requires inside { place < length to.now }
    requires places { length from.now ≡ length to.now }
    requires first { sum from.now < 2 ^ 63 }
    requires second { sum to.now < 2 ^ 63 }
    ensures { (N : ℕ) → N < FAR → (result ≤ N) ↔ IsNearVector from.now to.now place N }
{
    if to[place] == 0 {
        return FAR;
    }
    distance(from, to)
}

/// The greater of `enough` and the least distance from one of the vectors to one with a positive number at the place.
/// Once a distance is no more than `enough`, no further one is found.
pub fn nearest(rows: &[Nats], from: usize, place: usize, enough: u64) -> u64
    requires positive { (e : ℕ) × HavePositive e rows.now place }
    requires from { from < length rows.now }
    ensures { IsLeastFrom enough (IsNearRow rows.now from place) result }
{
    let vector = rows[from].as_slice();
    let mut least = FAR;
    for other in 0..rows.len() {
        least = least.min(distance_at(vector, rows[other].as_slice(), place));
        if least <= enough {
            return enough;
        }
    }
    least.max(enough)
}
