//! An ideal that a call made, as what a row tells.

ghost use Rattle.std.specs.Prelude.{◌≡◌, IfOk};
ghost use Rattle.sg_rows_ideals.specs.Settled.{IsIdealMade, IsSettled};

use sg_apery::Table;
use sg_ideal::{Ideal, IdealFault};
use sg_rows::{CallFault, Fault, Made};
use std::alloc::{AllocError, Global};

/// The ideal over the semigroup of the table.
pub(crate) fn held(alloc: Global, table: &Table, ideal: &Ideal) -> Result<Made, AllocError>
    requires { ideal.now.ambient ≡ table.now }
    ensures { IfOk result (IsIdealMade ideal.now) }
{
    let generators = ideal.minimal_generators(alloc)?;
    Ok(Made::Ideal(table.generators().try_clone()?, generators))
}

/// The ideal that was made over the semigroup of the table, or the refusal of the call that was to make it.
pub(crate) fn settled(
    alloc: Global,
    table: &Table,
    made: Result<Ideal, IdealFault>,
) -> Result<Made, CallFault>
    requires { IfOk made (λ ideal. ideal.ambient ≡ table.now) }
    ensures { IsSettled made result }
{
    match made {
        Ok(ideal) => Ok(held(alloc, table, &ideal)?),
        Err(IdealFault::BadArgument) => Err(CallFault::Script(Fault::BadArgument)),
        Err(IdealFault::TooLarge) => Err(CallFault::Script(Fault::TooLarge)),
        Err(IdealFault::Memory(error)) => Err(CallFault::Memory(error)),
    }
}
