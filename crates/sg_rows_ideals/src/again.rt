//! Ideals by their minimal lists.

ghost use Rattle.std.specs.Prelude.{◌≡◌, IfOk};
ghost use Rattle.sg_ideal.specs.Faults.{IsMemory};
ghost use Rattle.sg_lawful.specs.Lawful.{IsLawfulIdeal};
ghost use Rattle.sg_rows_ideals.specs.Rows.{over};

use sg_apery::Table;
use sg_ideal::{Ideal, IdealFault};
use std::alloc::{AllocError, Global};

/// What was refused, where no more than memory was wanting.
fn want_of_memory(fault: IdealFault) -> AllocError
    requires { IsMemory fault }
{
    match fault {
        IdealFault::BadArgument => unreachable!(),
        IdealFault::TooLarge => unreachable!(),
        IdealFault::Memory(error) => error,
    }
}

/// The ideal over the semigroup of the table that has this minimal list: generating it again gives the same.
pub fn known_ideal(alloc: Global, table: &Table, generators: &[i64]) -> Result<Ideal, AllocError>
    requires { IsLawfulIdeal table.now generators.now }
    ensures { IfOk result (λ ideal. ideal ≡ over table.now generators.now) }
{
    match Ideal::of_generators(alloc, table, generators) {
        Ok(ideal) => Ok(ideal),
        Err(fault) => Err(want_of_memory(fault)),
    }
}
