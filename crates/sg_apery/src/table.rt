//! The table of a numerical semigroup, and what it answers.

ghost use Rattle.std.specs.Prelude.{◌≡◌, ◌<◌, ◌≤◌, length, vec_len, EachIndex, slice_index, IfOk, IsTrue, ◌↔◌};
ghost use Rattle.sg_defs.specs.Apery.{IsApery, IsAperyEntry};
ghost use Rattle.sg_defs.specs.Membership.{IsNumericalSemigroup, IsIntegerMember, IsMember, IsMinimal};
ghost use Rattle.sg_classes.specs.Fit.{IsFit, IsNarrow, IsSpan};
ghost use Rattle.sg_classes.specs.Table.{IsMinimalTable, IsTable};

use sg_classes::{
    APERY_ENTRY_LIMIT, MULTIPLICITY_LIMIT, NARROW_GENERATORS, NARROW_PRODUCT, greatest,
};
use sg_nat::Nats;
use sg_tables::list_modulo;
use std::alloc::{AllocError, Global};
use std::marker::Model;

/// The minimal generators of a numerical semigroup, and its Apery list modulo the multiplicity: the least member in
/// each residue class. Contracts see the minimal generators (Rosales and Garcia-Sanchez, Numerical Semigroups, 2009).
#[derive(Drop)]
pub struct Table {
    generators: Nats,
    apery: Vec<u64>,
}

impl Model for Table {
    ghost use Rattle.std.specs.Prelude.{List, ℕ};

    ghost Value = { List ℕ };

    ghost view = { λ t. t.generators };

    ghost use Rattle.sg_classes.specs.Table.{IsMinimalTable};

    ghost invariant = { λ t. IsMinimalTable t.generators t.apery.items };
}

impl Table {
    /// Joins minimal generators and their Apery list.
    pub(crate) fn from_parts(generators: Nats, apery: Vec<u64>) -> Table
        requires { IsMinimalTable generators apery.items }
        ensures { result ≡ generators }
    {
        Table { generators, apery }
    }

    /// Whether a natural is a member, by one comparison. It takes no memory.
    pub fn contains_natural(&self, n: u64) -> bool
        ensures { IsTrue result ↔ IsMember self.now n }
    {
        self.apery[(n % self.apery.len() as u64) as usize] <= n
    }

    /// Whether an integer is a member, by one comparison. It takes no memory.
    pub fn contains(&self, x: i64) -> bool
        ensures { IsTrue result ↔ IsIntegerMember self.now x }
    {
        if x < 0 {
            return false;
        }
        self.contains_natural(x as u64)
    }

    /// The minimal generators, ascending.
    pub fn generators(&self) -> &Nats
        ensures same { result.now ≡ self.now }
        ensures semigroup { IsNumericalSemigroup self.now }
        ensures minimal { IsMinimal self.now }
        ensures fit { IsFit self.now }
    {
        &self.generators
    }

    /// The least member above 0, which is the first generator.
    pub fn multiplicity(&self) -> u64
        ensures first { result ≡ slice_index self.now 0 }
        ensures positive { 0 < result }
        ensures small { result ≤ MULTIPLICITY_LIMIT }
    {
        self.apery.len() as u64
    }

    /// The Apery list modulo the multiplicity: entry `i` is the least member congruent to `i`.
    pub fn apery(&self) -> &[u64]
        ensures semigroup { IsNumericalSemigroup self.now }
        ensures entries { length result.now ≡ slice_index self.now 0 }
        ensures short { length result.now ≤ MULTIPLICITY_LIMIT }
        ensures apery { IsApery self.now (slice_index self.now 0) result.now }
        ensures small { EachIndex result.now (λ i. slice_index result.now i ≤ APERY_ENTRY_LIMIT) }
    {
        self.apery.as_slice()
    }

    /// The least member in each residue class modulo a member.
    pub(crate) fn list_modulo(&self, alloc: Global, modulus: u64) -> Result<Vec<u64>, AllocError>
        requires positive { 0 < modulus }
        requires short { modulus ≤ MULTIPLICITY_LIMIT }
        requires modulus { IsMember self.now modulus }
        ensures table { IfOk result (λ t. IsTable self.now t.items) }
        ensures length { IfOk result (λ t. vec_len t ≡ modulus) }
    {
        list_modulo(alloc, &self.apery, modulus)
    }

    /// The least member congruent to `i` modulo the multiplicity. It takes no memory.
    pub fn entry(&self, i: usize) -> u64
        requires { i < slice_index self.now 0 }
        ensures entry { IsAperyEntry self.now (slice_index self.now 0) i result }
        ensures small { result ≤ APERY_ENTRY_LIMIT }
    {
        self.apery[i]
    }

    /// The Frobenius number, the multiplicity and the greatest generator together. The first two are the greatest
    /// entry of the Apery list (Rosales and Garcia-Sanchez, Proposition 2.12). It takes no memory.
    pub fn span(&self) -> u64
        ensures { IsSpan self.now result }
    {
        let generators = self.generators.as_slice();
        greatest(&self.apery) + generators[generators.len() - 1]
    }

    /// Whether there are so few generators, and the multiplicity is so small, that factorizations are listed. It takes
    /// no memory.
    pub fn narrow(&self) -> bool
        ensures { IsTrue result ↔ IsNarrow self.now }
    {
        let generators = self.generators.len() as u64;
        generators <= NARROW_GENERATORS && self.apery.len() as u64 * generators <= NARROW_PRODUCT
    }
}
