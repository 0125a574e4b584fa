//! Generators followed round their circles of classes: the classes that a generator leads to, one after the other.
//!
//! One turn, from any class of the circle, and on until a step lowers nothing: then the generator leads from no entry of
//! the circle to a greater one (round robin: Bocker and Liptak, A fast and simple algorithm for the money changing
//! problem, 2007). No member that the table knew is looked at again, so each generator is followed once.

ghost use Rattle.std.specs.Prelude.{◌≡◌, ◌≢◌, ◌+◌, ◌*◌, ◌^◌, ◌%◌, ◌<◌, ◌≤◌, ℕ, List, length, sum, slice_index, IsTrue, IsFalse};
ghost use Rattle.sg_defs.specs.Membership.{IsMember};
ghost use Rattle.sg_tables.specs.Circles.{AreKnown, IsClosedAt, IsFollowed, IsFollowedBut, IsLoweredOn};
ghost use Rattle.sg_tables.specs.Closed.{IsClosedUnder};

use sg_nat::gcd;

/// The class that a step leads to.
pub fn next_class(class: usize, step: usize, modulus: usize) -> usize
    requires class { class < modulus }
    requires step { step < modulus }
    ensures { result ≡ (class + step) % modulus }
{
    let room = modulus - class;
    if step < room {
        class + step
    } else {
        step - room
    }
}

/// Lowers the entry of the class that a generator leads to from class `from`, and says whether it did.
pub fn lower(table: &mut [u64], generator: u64, from: usize, target: usize) -> bool
    requires from { from < length table.old }
    requires target { target ≡ (from + generator) % length table.old }
    ensures known { (M : List ℕ) → IsMember M generator → AreKnown M table.old → AreKnown M table.new }
    ensures down { slice_index table.new target ≤ slice_index table.old target }
    ensures others { (i : ℕ) → i ≢ target → slice_index table.new i ≡ slice_index table.old i }
    ensures lower { IsTrue result → sum table.new < sum table.old }
    ensures same { IsFalse result → table.new ≡ table.old }
    ensures closed { IsClosedAt table.new generator from }
{
    let candidate = table[from].saturating_add(generator);
    if candidate < table[target] {
        table[target] = candidate;
        true
    } else {
        false
    }
}

/// Follows a generator for some steps from class `start`, and says at which class it ends.
fn first_steps(table: &mut [u64], generator: u64, start: usize, steps: usize) -> usize
    requires start { start < length table.old }
    requires short { length table.old ≤ 2 ^ 62 }
    ensures known { (M : List ℕ) → IsMember M generator → AreKnown M table.old → AreKnown M table.new }
    ensures lowered { IsLoweredOn generator start table.old table.new }
    ensures end { result ≡ (start + steps * generator) % length table.new }
    ensures followed { IsFollowedBut table.new generator start steps result }
{
    let step = (generator % table.len() as u64) as usize;
    let mut at = start;
    for _ in 0..steps {
        let next = next_class(at, step, table.len());
        let _ = lower(table, generator, at, next);
        at = next;
    }
    at
}

/// Follows a generator on from class `from` of the circle of `start`, until a step lowers nothing.
fn steps_on(table: &mut [u64], generator: u64, start: usize, steps: usize, from: usize)
    requires start { start < length table.old }
    requires short { length table.old ≤ 2 ^ 62 }
    requires from { from ≡ (start + steps * generator) % length table.old }
    requires followed { IsFollowedBut table.old generator start steps from }
    ensures known { (M : List ℕ) → IsMember M generator → AreKnown M table.old → AreKnown M table.new }
    ensures lowered { IsLoweredOn generator start table.old table.new }
    ensures followed { IsFollowed table.new generator start steps }
{
    let step = (generator % table.len() as u64) as usize;
    let mut at = from;
    let mut next = next_class(at, step, table.len());
    while lower(table, generator, at, next) {
        at = next;
        next = next_class(at, step, table.len());
    }
}

/// Follows a generator round the circle of `start`, which has so many classes.
fn go_circle(table: &mut [u64], generator: u64, start: usize, steps: usize)
    requires start { start < length table.old }
    requires short { length table.old ≤ 2 ^ 62 }
    ensures known { (M : List ℕ) → IsMember M generator → AreKnown M table.old → AreKnown M table.new }
    ensures lowered { IsLoweredOn generator start table.old table.new }
    ensures followed { IsFollowed table.new generator start steps }
{
    let from = first_steps(table, generator, start, steps);
    steps_on(table, generator, start, steps, from);
}

/// Follows a generator round each of its circles.
pub fn go_round(table: &mut [u64], generator: u64)
    requires not_empty { 0 < length table.old }
    requires short { length table.old ≤ 2 ^ 62 }
    requires positive { 0 < generator }
    ensures known { (M : List ℕ) → IsMember M generator → AreKnown M table.old → AreKnown M table.new }
    ensures long { length table.new ≡ length table.old }
    ensures down { (i : ℕ) → i < length table.old → slice_index table.new i ≤ slice_index table.old i }
    ensures closed { IsClosedUnder table.new generator }
{
    let circles = gcd(generator, table.len() as u64) as usize;
    let steps = table.len() / circles;
    for start in 0..circles {
        go_circle(table, generator, start, steps);
    }
}
