//! The lengths of elements.

ghost use Rattle.std.specs.Prelude.{◌≡◌, ◌+◌, ◌<◌, ◌≤◌, ◌≤ℤ◌, ℕ, pos, length, slice_index, IfOk};
ghost use Rattle.sg_defs.specs.Listings.{Lists};
ghost use Rattle.sg_defs.specs.Membership.{IsFactorization};
ghost use Rattle.sg_nonunique.specs.Factorizations.{IsIntegerFactorization, IsLengthIn};
ghost use Rattle.sg_factor.specs.Coins.{AreLeastCounts};
ghost use Rattle.sg_factor.specs.LengthTables.{LengthReach, IsLengthTable, IsLeastLength, differences_of};

use crate::coins::{NO_SUM, coin_table};
use crate::limits::LENGTH_LIMIT;
use sg_apery::Table;
use sg_nat::Nats;
use std::alloc::{AllocError, Global};
use std::marker::Model;

/// The lengths of all elements up to a number, of one numerical semigroup. Contracts see the generators and that
/// number. It keeps, for each sum of differences of the other generators and the first, how few of them make it: `l` is
/// a length of `n` exactly where `n - l * n1` is a sum of at most `l` differences.
#[derive(Drop)]
pub struct LengthTable {
    generators: Nats,
    upto: u64,
    counts: Vec<u32>,
}

impl Model for LengthTable {
    ghost use Rattle.sg_factor.specs.LengthTables.{LengthReach};

    ghost Value = { LengthReach };

    ghost view = { λ t. record { generators = t.generators; upto = t.upto } };

    ghost use Rattle.sg_factor.specs.LengthTables.{IsLengthTable};

    ghost invariant = { λ t. IsLengthTable t.generators t.upto t.counts.items };
}

/// By how much the other generators exceed the first.
fn differences(alloc: Global, generators: &[u64]) -> Result<Vec<u64>, AllocError>
    requires not_empty { 0 < length generators.now }
    requires least { (k : ℕ) → k < length generators.now → slice_index generators.now 0 ≤ slice_index generators.now k }
    ensures { IfOk result (λ coins. coins.items ≡ differences_of generators.now) }
{
    let mut coins = Vec::with_capacity(alloc, generators.len())?;
    for generator in &generators[1..] {
        coins.push(*generator - generators[0])?;
    }
    Ok(coins)
}

impl LengthTable {
    /// The table of a semigroup up to a number, in one step for each sum of differences and each generator.
    pub fn new(alloc: Global, t: &Table, upto: u64) -> Result<LengthTable, AllocError>
        requires { upto ≤ LENGTH_LIMIT }
        ensures generators { IfOk result (λ table. table.generators ≡ t.now) }
        ensures upto { IfOk result (λ table. table.upto ≡ upto) }
    {
        let generators = t.generators().try_clone()?;
        let given = generators.as_slice();
        let first = given[0];
        let last = given[given.len() - 1];
        let coins = differences(alloc, given)?;
        let counts = coin_table(alloc, &coins, upto * (last - first) / last)?;
        Ok(LengthTable {
            generators,
            upto,
            counts,
        })
    }

    /// The lengths of a number, ascending.
    pub fn lengths_of(&self, alloc: Global, n: u64) -> Result<Nats, AllocError>
        requires { n ≤ self.now.upto }
        ensures { IfOk result (Lists (IsLengthIn (IsFactorization self.now.generators n))) }
    {
        let given = self.generators.as_slice();
        let first = given[0];
        let last = given[given.len() - 1];
        let counts = self.counts.as_slice();
        let mut found = Nats::new(alloc);
        for length in n.div_ceil(last)..n / first + 1 {
            if u64::from(counts[(n - length * first) as usize]) <= length {
                found.push(length)?;
            }
        }
        Ok(found)
    }
}

/// The same of a natural.
fn lengths_of_natural(alloc: Global, t: &Table, n: u64) -> Result<Nats, AllocError>
    requires { n ≤ LENGTH_LIMIT }
    ensures { IfOk result (Lists (IsLengthIn (IsFactorization t.now n))) }
{
    let table = LengthTable::new(alloc, t, n)?;
    table.lengths_of(alloc, n)
}

/// The lengths of an integer, ascending: the sums of the places of its factorizations. One that is no element has none.
pub fn lengths(alloc: Global, t: &Table, n: i64) -> Result<Nats, AllocError>
    requires { n ≤ℤ pos LENGTH_LIMIT }
    ensures { IfOk result (Lists (IsLengthIn (IsIntegerFactorization t.now n))) }
{
    if n < 0 {
        return Ok(Nats::new(alloc));
    }
    lengths_of_natural(alloc, t, n as u64)
}

/// An entry of the list of least lengths, by the least number of generators.
fn least_entry(count: u32) -> u64
    ensures none { count ≡ NO_SUM → result ≡ 0 }
    ensures some { (count ≡ NO_SUM → ⊥) → result ≡ count + 1 }
{
    if count == NO_SUM {
        0
    } else {
        u64::from(count) + 1
    }
}

/// For each number up to a bound 1 more than its least length, and 0 where it is no element.
pub fn least_lengths(alloc: Global, t: &Table, upto: u64) -> Result<Nats, AllocError>
    requires { upto ≤ LENGTH_LIMIT }
    ensures entries { IfOk result (λ least. length least ≡ upto + 1) }
    ensures each { IfOk result (λ least. (n : ℕ) → n ≤ upto → IsLeastLength t.now n (slice_index least n)) }
{
    let counts = coin_table(alloc, t.generators().as_slice(), upto)?;
    let mut least = Nats::new(alloc);
    for count in &counts {
        least.push(least_entry(*count))?;
    }
    Ok(least)
}
