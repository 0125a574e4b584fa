//! The catenary degree of a set of vectors: the longest step of a least tree that joins them all (Prim's algorithm).

ghost use Rattle.std.specs.Prelude.{◌≡◌, ◌<◌, ◌≤◌, ◌^◌, ◌-◌, [], length, sum, min, slice_index, slice_index_or, Contains, EachIndex, IfOk};
ghost use Rattle.sg_defs.specs.Vectors.{distance};
ghost use Rattle.sg_nonunique.specs.Catenary.{IsCatenaryOf};
ghost use Rattle.sg_factor.specs.Nearness.{AreComparable};

use sg_nat::{Nats, distance};
use std::alloc::{AllocError, Global};

/// The distance of a vector that is reached. It is more than any other.
pub const REACHED: u64 = u64::MAX;

/// The place of the least number.
fn least_place(near: &[u64]) -> usize
    requires { 0 < length near.now }
    ensures inside { result < length near.now }
    ensures least { EachIndex near.now (λ j. slice_index near.now result ≤ slice_index near.now j) }
{
    let mut least = 0;
    for place in 1..near.len() {
        if near[place] < near[least] {
            least = place;
        }
    }
    least
}

/// The lesser of a number and the distance of two vectors, and the number itself where the vector is reached.
fn nearer(near: u64, from: &[u64], to: &[u64]) -> u64
    requires places { length from.now ≡ length to.now }
    requires first { sum from.now < 2 ^ 63 }
    requires second { sum to.now < 2 ^ 63 }
    ensures kept { REACHED ≤ near → result ≡ near }
    ensures noted { near < REACHED → result ≡ min near (distance from.now to.now) }
{
    if near == REACHED {
        return near;
    }
    near.min(distance(from, to))
}

/// For each vector that is not reached the distance from the one at `from`, where that is less.
fn note_distances(rows: &[Nats], near: &mut [u64], from: usize)
    requires comparable { AreComparable rows.now }
    requires long { length near.old ≡ length rows.now }
    requires from { from < length rows.now }
    ensures kept { EachIndex near.new (λ j. REACHED ≤ slice_index near.old j → slice_index near.new j ≡ slice_index near.old j) }
    ensures noted { EachIndex near.new (λ j. slice_index near.old j < REACHED →
        slice_index near.new j ≡ min (slice_index near.old j) (distance (slice_index_or rows.now from []) (slice_index_or rows.now j []))) }
{
    let vector = rows[from].as_slice();
    for place in 0..near.len() {
        near[place] = nearer(near[place], vector, rows[place].as_slice());
    }
}

/// Reaches all vectors from the first, the nearest one next, and gives the longest step.
fn longest_step(rows: &[Nats], near: &mut [u64]) -> u64
    requires comparable { AreComparable rows.now }
    requires some { 0 < length rows.now }
    requires long { length near.old ≡ length rows.now }
    requires unknown { EachIndex near.old (λ j. slice_index near.old j ≡ REACHED - 1) }
    ensures { IsCatenaryOf (Contains rows.now) result }
{
    near[0] = REACHED;
    note_distances(rows, near, 0);
    let mut longest = 0u64;
    let mut next = least_place(near);
    'reaching: while near[next] < REACHED {
        longest = longest.max(near[next]);
        near[next] = REACHED;
        note_distances(rows, near, next);
        next = least_place(near);
    }
    longest
}

/// The least number for which any two of the vectors are joined by a chain of them with steps no longer than that. It is
/// 0 for at most one vector.
pub fn catenary_of(alloc: Global, rows: &[Nats]) -> Result<u64, AllocError>
    requires { AreComparable rows.now }
    ensures { IfOk result (IsCatenaryOf (Contains rows.now)) }
{
    if rows.is_empty() {
        return Ok(0);
    }
    let mut near = vec![in alloc; REACHED - 1; rows.len()]?;
    Ok(longest_step(rows, &mut near))
}
