//! Sets of vectors.

ghost use Rattle.std.specs.Prelude.{◌≡◌, ◌≤◌, ◌+◌, [], length, IfErr, OnOk, OnErr};
ghost use Rattle.sg_atoms.specs.Faults.{IsSpent};
ghost use Rattle.sg_atoms.specs.Sets.{AreDifferent, IsAdded};

use crate::fault::SearchFault;
use indexmap::IndexSet;
use sg_nat::Nats;
use std::alloc::{AllocError, Global};
use std::marker::Model;

/// Different vectors, in the order in which they were put in. Contracts see it as that list.
#[derive(Drop)]
pub struct Level {
    vectors: IndexSet<Nats>,
}

impl Model for Level {
    ghost use Rattle.std.specs.Prelude.{List, ℕ, nat_eq};
    ghost use Rattle.std.specs.Cmp.Lexicographic.{pointwise};
    ghost use Rattle.indexmap.specs.IndexSet.{IsUnique};

    ghost Value = { List (List ℕ) };

    ghost view = { λ s. s.vectors.keys };

    ghost invariant = { λ s. IsUnique (pointwise nat_eq) s.vectors };
}

impl Level {
    /// No vectors.
    pub fn new(alloc: Global) -> Level
        ensures { result ≡ [] }
    {
        Level {
            vectors: IndexSet::new(alloc),
        }
    }

    /// How many there are.
    pub fn len(&self) -> usize
        ensures number { result ≡ length self.now }
        ensures different { AreDifferent self.now }
    {
        self.vectors.len()
    }

    /// The vectors.
    pub fn as_slice(&self) -> &[Nats]
        ensures vectors { result.now ≡ self.now }
        ensures different { AreDifferent self.now }
    {
        self.vectors.as_slice()
    }

    /// Puts a vector in, where it is not there.
    pub fn insert(&mut self, vector: Nats) -> Result<(), AllocError>
        ensures ok { OnOk result (IsAdded self.old vector self.new) }
        ensures err { OnErr result (self.new ≡ self.old) }
    {
        let _ = self.vectors.insert_full(vector)?;
        Ok(())
    }

    /// Puts a vector in, where it is not there, and says whether there are more than `room` then.
    pub fn insert_within(&mut self, vector: Nats, room: usize) -> Result<(), SearchFault>
        ensures ok { OnOk result (IsAdded self.old vector self.new) }
        ensures within { OnOk result (length self.new ≤ room) }
        ensures spent { IfErr result (IsSpent (IsAdded self.old vector self.new × (room + 1 ≤ length self.new) × AreDifferent self.new)) }
    {
        self.insert(vector)?;
        if self.as_slice().len() > room {
            return Err(SearchFault::Budget);
        }
        Ok(())
    }
}
