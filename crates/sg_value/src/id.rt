//! Places in a store.

ghost use Rattle.std.specs.Prelude.{◌≡◌};

use std::marker::Model;

/// A semigroup, by its place in a store. Contracts see it as that number.
#[derive(Clone, Copy, Debug, PartialEq, Eq, Hash)]
pub struct SemId {
    index: usize,
}

impl Model for SemId {
    ghost use Rattle.std.specs.Prelude.{ℕ};

    ghost Value = { ℕ };

    ghost view = { λ id. id.index };

    ghost inverse = { λ n. record { index = n } };
}

impl SemId {
    /// The id of this place.
    pub fn new(index: usize) -> SemId
        ensures { result ≡ index }
    {
        SemId { index }
    }

    /// The place.
    pub fn index(&self) -> usize
        ensures { result ≡ self.now }
    {
        self.index
    }
}

/// A relative ideal, by its place in a store. Contracts see it as that number.
#[derive(Clone, Copy, Debug, PartialEq, Eq, Hash)]
pub struct IdealId {
    index: usize,
}

impl Model for IdealId {
    ghost use Rattle.std.specs.Prelude.{ℕ};

    ghost Value = { ℕ };

    ghost view = { λ id. id.index };

    ghost inverse = { λ n. record { index = n } };
}

impl IdealId {
    /// The id of this place.
    pub fn new(index: usize) -> IdealId
        ensures { result ≡ index }
    {
        IdealId { index }
    }

    /// The place.
    pub fn index(&self) -> usize
        ensures { result ≡ self.now }
    {
        self.index
    }
}
