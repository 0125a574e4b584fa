//! Rows by what they are told of. Each tells its value, or its first refusal, over plain data: it knows no store.

ghost use Rattle.std.specs.Prelude.{ℕ, ℤ, List};
ghost use Rattle.sg_defs.specs.Invariants.{IsPseudoFrobenius};
ghost use Rattle.sg_defs.specs.Listings.{ListsIntegers};
ghost use Rattle.sg_lawful.specs.Lawful.{IsLawfulList};
ghost use Rattle.sg_rows.specs.Made.{Tells};
ghost use Rattle.sg_rows.specs.Order.{Row};

use crate::fault::CallFault;
use crate::made::Made;
use sg_apery::Table;
use sg_nat::{Ints, Nats};
use std::alloc::Global;

/// Rows of integers.
pub trait OfIntegers {
    /// What the row says of them.
    ghost says: { Self → List ℤ → Row };

    /// Tells it.
    fn tell(self, alloc: Global, integers: &[i64]) -> Result<Made, CallFault>
        ensures { Tells result (says self integers.now) };
}

/// Rows of one semigroup that ask for nothing.
pub trait OfGenerators {
    /// What the row says of the semigroup with these minimal generators.
    ghost says: { Self → List ℕ → Row };

    /// Tells it.
    fn tell(self, alloc: Global, generators: &Nats) -> Result<Made, CallFault>
        requires { IsLawfulList generators.now }
        ensures { Tells result (says self generators.now) };
}

/// Rows of one semigroup that ask for its table.
pub trait OfTable {
    /// What the row says of the semigroup.
    ghost says: { Self → List ℕ → Row };

    /// Tells it.
    fn tell(self, alloc: Global, table: &Table) -> Result<Made, CallFault>
        ensures { Tells result (says self table.now) };
}

/// Rows of one semigroup that ask for its pseudo-Frobenius numbers.
pub trait OfNumbers {
    /// What the row says of the semigroup.
    ghost says: { Self → List ℕ → Row };

    /// Tells it.
    fn tell(self, alloc: Global, numbers: &Ints) -> Result<Made, CallFault>
        ensures { (G : List ℕ) → ListsIntegers (IsPseudoFrobenius G) numbers.now → Tells result (says self G) };
}

/// Rows of one semigroup that ask for its table, and then for its pseudo-Frobenius numbers.
pub trait OfTableAndNumbers {
    /// What the row says of the semigroup.
    ghost says: { Self → List ℕ → Row };

    /// Tells it.
    fn tell(self, alloc: Global, table: &Table, numbers: &Ints) -> Result<Made, CallFault>
        requires { ListsIntegers (IsPseudoFrobenius table.now) numbers.now }
        ensures { Tells result (says self table.now) };
}

/// Rows of a semigroup and an integer that ask for the semigroup's table.
pub trait OfTableAndInteger {
    /// What the row says of the semigroup and the integer.
    ghost says: { Self → List ℕ → ℤ → Row };

    /// Tells it.
    fn tell(self, alloc: Global, table: &Table, integer: i64) -> Result<Made, CallFault>
        ensures { Tells result (says self table.now integer) };
}
