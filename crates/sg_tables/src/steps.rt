//! A step that leads from many generators to others, and the generators from which it leads to none.
//!
//! Where generators lie in runs of a step, as in a progression or in a list with holes of one pattern, sums need be tried
//! from the starts of runs of members alone, or with the ends of runs of generators.

ghost use Rattle.std.specs.Prelude.{◌+◌, ◌<◌, length, IfOk, IsTrue, Contains};
ghost use Rattle.std.specs.List.Sorted.{IsStrictlyIncreasing};
ghost use Rattle.sg_tables.specs.Found.{AreTops};

use crate::counts::count_up_to;
use std::alloc::{AllocError, Global};

/// So many generators are asked whether a step leads to another, and from so many are steps taken.
const PROBES: usize = 64;

/// A step leads from a generator to one of so many next ones.
const NEAR: usize = 8;

/// Whether a number is listed, looked for by halves.
fn is_listed(generators: &[u64], number: u64) -> bool
    requires { IsStrictlyIncreasing generators.now }
    ensures { IsTrue result → Contains generators.now number }
{
    let count = count_up_to(generators, number);
    count > 0 && generators[count - 1] == number
}

/// From how many of the probed generators a step leads to another.
fn probe(generators: &[u64], step: u64) -> usize
    requires { IsStrictlyIncreasing generators.now }
{
    let apart = generators.len() / PROBES + 1;
    let mut found = 0;
    for place in 0..generators.len() / apart {
        if is_listed(generators, generators[place * apart].saturating_add(step)) {
            found += 1;
        }
    }
    found
}

/// A step, and from how many of the probed generators it leads to another.
#[derive(Clone, Copy)]
struct Best {
    step: u64,
    found: usize,
}

/// The best of some steps from one generator to the next ones, and of the best one before.
fn best_near(generators: &[u64], place: usize, before: Best) -> Best
    requires ascending { IsStrictlyIncreasing generators.now }
    requires place { place < length generators.now }
    requires before { 0 < before.step }
    ensures { 0 < result.step }
{
    let mut best = before;
    let end = generators.len().min(place.saturating_add(NEAR + 1));
    for next in place + 1..end {
        let step = generators[next] - generators[place];
        let found = probe(generators, step);
        if found > best.found {
            best = Best { step, found };
        }
    }
    best
}

/// A step that leads from many generators to others: the best of some differences.
pub fn choose_step(generators: &[u64]) -> u64
    requires ascending { IsStrictlyIncreasing generators.now }
    ensures { 0 < result }
{
    let mut best = Best { step: 1, found: 0 };
    let apart = generators.len() / NEAR + 1;
    for base in 0..generators.len() / apart {
        best = best_near(generators, base * apart, best);
    }
    best.step
}

/// The generators from which a step leads to none.
pub fn tops_of(alloc: Global, generators: &[u64], step: u64) -> Result<Vec<u64>, AllocError>
    requires ascending { IsStrictlyIncreasing generators.now }
    requires some { 0 < step }
    ensures { IfOk result (λ tops. AreTops generators.now step tops.items) }
{
    let mut tops = Vec::new(alloc);
    let mut next = 0;
    for generator in generators {
        let sum = generator.saturating_add(step);
        while next < generators.len() && generators[next] < sum {
            next += 1;
        }
        if next == generators.len() || generators[next] - *generator != step {
            tops.push(*generator)?;
        }
    }
    Ok(tops)
}
