//! What ids stand for.

ghost use Rattle.std.specs.Prelude.{◌≡◌, [], slice_get, Some, IsSome, IfOk, OnErr, IsTrue, ◌↔◌};
ghost use Rattle.sg_lawful.specs.Lawful.{IsLawfulList};
ghost use Rattle.sg_store.specs.Fit.{IsLawfulRelative};
ghost use Rattle.sg_store.specs.Interned.{IsInterned, IsIdealInterned};
ghost use Rattle.sg_value.specs.Data.{ideals};
ghost use Rattle.sg_value.specs.Plain.{AreDistinct, AllKnown, plain, thing_at, IsAmbientOf, AreGeneratorsOf};
ghost use Rattle.sg_store.specs.Keyed.{ideal_over, IsKeyOf};
ghost use Rattle.sg_value.specs.Known.{named};

use crate::key::{IdealKey, Key};
use indexmap::IndexSet;
use sg_nat::{Ints, Nats};
use sg_value::{IdealId, Names, SemId, Value, equal};
use std::alloc::{AllocError, Global};
use std::marker::Model;

/// The semigroups and ideals that are known, each once. Contracts see it as the lists of what it knows.
#[derive(Drop)]
pub struct Ids {
    keys: IndexSet<Key>,
    ideals: IndexSet<IdealKey>,
}

impl Model for Ids {
    ghost use Rattle.sg_value.specs.Known.{Known};

    ghost Value = { Known };

    ghost use Rattle.sg_store.specs.Held.{known_by, AreIds};

    ghost view = { λ s. known_by s.keys.keys s.ideals.keys };

    ghost invariant = { λ s. AreIds s.keys s.ideals };
}

impl Ids {
    /// No semigroup and no ideal.
    pub fn new(alloc: Global) -> Ids
        ensures semigroups { result.semigroups ≡ [] }
        ensures ideals { result.ideals ≡ [] }
    {
        Ids {
            keys: IndexSet::new(alloc),
            ideals: IndexSet::new(alloc),
        }
    }

    /// The id of a minimal list: the old one where the list is known.
    pub fn intern(&mut self, gens: Nats) -> Result<SemId, AllocError>
        requires { IsLawfulList gens }
        ensures interned { IfOk result (λ id. IsInterned self.old self.new gens id) }
        ensures err { OnErr result (self.new ≡ self.old) }
    {
        let (index, _) = self.keys.insert_full(Key { list: gens })?;
        Ok(SemId::new(index))
    }

    /// The id of an ideal of a known semigroup: the old one where the semigroup and the minimal list are known.
    pub fn intern_ideal(&mut self, ambient: SemId, gens: Ints) -> Result<IdealId, AllocError>
        requires known { IsSome (slice_get self.old.semigroups ambient) }
        requires fit { IsLawfulRelative (ideal_over self.old ambient gens) }
        ensures interned { IfOk result (λ id. IsIdealInterned self.old self.new (ideal_over self.old ambient gens) id) }
        ensures err { OnErr result (self.new ≡ self.old) }
    {
        let (index, _) = self.ideals.insert_full(IdealKey {
            ambient,
            list: gens,
        })?;
        Ok(IdealId::new(index))
    }

    /// What a known ideal was made known by.
    fn ideal_key(&self, id: IdealId) -> &IdealKey
        requires { IsSome (slice_get self.now.ideals id) }
        ensures { IsKeyOf self.now id result.now }
    {
        let _ = &self.keys;
        let Some(key) = self.ideals.get_index(id.index()) else {
            unreachable!()
        };
        key
    }

    /// The id of the semigroup that a known ideal is one of.
    pub fn ambient(&self, id: IdealId) -> SemId
        requires { IsSome (slice_get self.now.ideals id) }
        ensures known { IsAmbientOf (named self.now) id result }
        ensures fit { IsLawfulRelative (thing_at (named self.now) ideals id) }
    {
        self.ideal_key(id).ambient
    }

    /// The minimal generators of a known ideal.
    pub fn ideal_generators(&self, id: IdealId) -> &Ints
        requires { IsSome (slice_get self.now.ideals id) }
        ensures list { AreGeneratorsOf (named self.now) id result.now }
        ensures fit { IsLawfulRelative (thing_at (named self.now) ideals id) }
    {
        &self.ideal_key(id).list
    }

    /// The minimal generators of a known semigroup.
    pub fn generators(&self, id: SemId) -> &Nats
        requires { IsSome (slice_get self.now.semigroups id) }
        ensures list { slice_get self.now.semigroups id ≡ Some result.now }
        ensures fit { IsLawfulList result.now }
        ensures distinct { AreDistinct (named self.now) }
    {
        let Some(key) = self.keys.get_index(id.index()) else {
            unreachable!()
        };
        &key.list
    }

    /// Whether two values are the same, semigroups and ideals by what they hold.
    pub fn equal(&self, a: &Value, b: &Value) -> bool
        requires left { AllKnown (named self.now) a.now }
        requires right { AllKnown (named self.now) b.now }
        ensures { IsTrue result ↔ (plain (named self.now) a.now ≡ plain (named self.now) b.now) }
    {
        let _ = &self.keys;
        equal(a, b)
    }
}

impl Names for Ids {
    ghost named = { λ ids. named ids };

    fn semigroup(&self, id: SemId) -> &Nats {
        self.generators(id)
    }

    fn ideal_ambient(&self, id: IdealId) -> SemId {
        self.ambient(id)
    }

    fn ideal_generators(&self, id: IdealId) -> &Ints {
        self.ideal_generators(id)
    }
}
