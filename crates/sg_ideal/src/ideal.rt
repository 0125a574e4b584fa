//! Relative ideals, and what they answer.

ghost use Rattle.std.specs.Prelude.{◌≡◌, ◌<◌, ◌↔◌, ℤ, pos, length, slice_index_or, IfOk, IfErr, OnOk, IsTrue};
ghost use Rattle.sg_defs.specs.Ideals.{IsIdealMember, IsMinimalIdeal, RelativeIdeal};
ghost use Rattle.sg_defs.specs.Membership.{IsNumericalSemigroup};
ghost use Rattle.sg_ideal.specs.Classes.{HasEntries, IsKept};
ghost use Rattle.sg_ideal.specs.Faults.{AreRefused};
ghost use Rattle.sg_ideal.specs.Value.{IsIdealOf, IsIn, IsLeast};
ghost use Rattle.sg_lawful.specs.Generators.{AreSmall, IsSmall};

use crate::classes::{is_above, spread};
use crate::fault::IdealFault;
use crate::given::{are_small, least};
use crate::made::from_table;
use sg_apery::Table;
use sg_nat::{Ints, Nats};
use std::alloc::{AllocError, Global};
use std::marker::Model;

/// A relative ideal of a numerical semigroup: a set of integers with a least element that each member of the semigroup
/// moves into itself. It keeps the minimal generators of the semigroup and its own, the first of which is its least
/// element, and the distance from it to the least member in each residue class. Contracts see the two lists (Rosales
/// and Garcia-Sanchez, Numerical Semigroups, 2009).
#[derive(Drop)]
pub struct Ideal {
    ambient: Nats,
    generators: Ints,
    entries: Vec<u64>,
}

impl Model for Ideal {
    ghost use Rattle.sg_defs.specs.Ideals.{RelativeIdeal};

    ghost Value = { RelativeIdeal };

    ghost view = { λ ideal. record { ambient = ideal.ambient; generators = ideal.generators } };

    ghost use Rattle.sg_ideal.specs.Classes.{IsKept};

    ghost invariant = { λ ideal. IsKept ideal.ambient ideal.generators ideal.entries.items };
}

impl Ideal {
    /// Joins minimal generators and their table.
    pub(crate) fn from_parts(ambient: Nats, generators: Ints, entries: Vec<u64>) -> Ideal
        requires { IsKept ambient generators entries.items }
        ensures ambient { result.ambient ≡ ambient }
        ensures generators { result.generators ≡ generators }
    {
        Ideal {
            ambient,
            generators,
            entries,
        }
    }

    /// The ideal that integers generate: the sums of one of them and a member of the semigroup.
    ///
    /// TooLarge where an integer's absolute value is `IDEAL_GENERATOR_LIMIT` or more; then BadArgument where there is
    /// none.
    pub fn of_generators(alloc: Global, t: &Table, given: &[i64]) -> Result<Ideal, IdealFault>
        ensures made { IfOk result (IsIdealOf t.now (IsIdealMember t.now given.now)) }
        ensures small { OnOk result (AreSmall given.now) }
        ensures not_empty { OnOk result (0 < length given.now) }
        ensures refused { IfErr result (AreRefused given.now) }
    {
        Ideal::generated(alloc, t, given)
    }

    /// The same, which tells that the table is a numerical semigroup's.
    pub(crate) fn generated(alloc: Global, t: &Table, given: &[i64]) -> Result<Ideal, IdealFault>
        ensures made { IfOk result (IsIdealOf t.now (IsIdealMember t.now given.now)) }
        ensures small { OnOk result (AreSmall given.now) }
        ensures not_empty { OnOk result (0 < length given.now) }
        ensures refused { IfErr result (AreRefused given.now) }
        ensures semigroup { IsNumericalSemigroup t.now }
    {
        let ambient = t.generators();
        if !are_small(given) {
            return Err(IdealFault::TooLarge);
        }
        let Some(base) = least(given) else {
            return Err(IdealFault::BadArgument);
        };
        let entries = spread(alloc, t.apery(), base, given)?;
        from_table(alloc, ambient.as_slice(), base, entries)
    }

    /// Whether an integer is a member, by one comparison. It takes no memory.
    pub fn contains(&self, x: i64) -> bool
        ensures { IsTrue result ↔ IsIn self.now x }
    {
        let least = self.generators.as_slice()[0];
        x >= least && is_above(&self.entries, x.abs_diff(least))
    }

    /// The minimal generators, ascending: the difference of no two of them is a member of the semigroup, and each
    /// member of the ideal is one of them and a member of the semigroup.
    pub fn minimal_generators(&self, alloc: Global) -> Result<Ints, AllocError>
        ensures list { IfOk result (λ list. list ≡ self.now.generators) }
        ensures not_empty { 0 < length self.now.generators }
        ensures minimal { IsMinimalIdeal self.now.ambient self.now.generators }
        ensures small { AreSmall self.now.generators }
    {
        self.generators.try_clone()
    }

    /// The minimal generators of the semigroup.
    pub(crate) fn ambient(&self) -> &[u64]
        ensures { result.now ≡ self.now.ambient }
    {
        self.ambient.as_slice()
    }

    /// The minimal generators.
    pub(crate) fn generators(&self) -> &[i64]
        ensures same { result.now ≡ self.now.generators }
        ensures small { AreSmall self.now.generators }
    {
        self.generators.as_slice()
    }

    /// The least member, which is the first of them.
    pub(crate) fn least(&self) -> i64
        ensures kept { HasEntries self.now.ambient self.now.generators }
        ensures first { result ≡ slice_index_or self.now.generators 0 (pos 0) }
        ensures least { IsLeast self.now.generators result }
        ensures small { IsSmall result }
    {
        self.generators.as_slice()[0]
    }

    /// The distance from the least member to the least one in each residue class.
    pub(crate) fn entries(&self) -> &[u64]
        ensures { IsKept self.now.ambient self.now.generators result.now }
    {
        &self.entries
    }
}
