//! What a constructor made, as what a row tells.

ghost use Rattle.sg_rows_constructors.specs.Settled.{IsSettled};

use sg_apery::{Table, TableFault};
use sg_rows::{CallFault, Fault, Made};

/// The semigroup that was made, or the refusal of its constructor.
pub(crate) fn settled(made: Result<Table, TableFault>) -> Result<Made, CallFault>
    ensures { IsSettled made result }
{
    match made {
        Ok(table) => Ok(Made::Semigroup(table.generators().try_clone()?)),
        Err(TableFault::BadArgument) => Err(CallFault::Script(Fault::BadArgument)),
        Err(TableFault::TooLarge) => Err(CallFault::Script(Fault::TooLarge)),
        Err(TableFault::Memory(error)) => Err(CallFault::Memory(error)),
    }
}
