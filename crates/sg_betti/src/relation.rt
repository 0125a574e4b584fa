//! Relations between factorizations.

use sg_nat::{Entry, ListOf, Nats};
use std::alloc::AllocError;
use std::marker::Model;

/// Two factorizations of one element.
#[derive(Drop)]
pub struct Relation {
    /// The element.
    pub value: u64,
    /// The one factorization.
    pub left: Nats,
    /// The other.
    pub right: Nats,
}

impl Model for Relation {
    ghost use Rattle.std.specs.Prelude.{ℕ};
    ghost use Rattle.sg_nonunique.specs.Presentations as presentations;

    ghost Value = { presentations.Relation ℕ };

    ghost view = { λ r. record { value = r.value; left = r.left; right = r.right } };
}

/// A list of relations.
pub type Presentation = ListOf<Relation>;

impl Entry for Relation {
    fn try_copy(&self) -> Result<Relation, AllocError> {
        Ok(Relation {
            value: self.value,
            left: self.left.try_clone()?,
            right: self.right.try_clone()?,
        })
    }
}
