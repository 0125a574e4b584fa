//! What takes all factorizations of an element, of which there may be too many.

ghost use Rattle.std.specs.Prelude.{◌≡◌};
ghost use Rattle.sg_defs.specs.Membership.{IsNumericalSemigroup};
ghost use Rattle.sg_rows.specs.Made.{Tells};
ghost use Rattle.sg_rows_factorizations.specs.Elements.{catenary_row, factorizations_row};
ghost use Rattle.sg_rows_factorizations.specs.Refusals.{refusal_of};

use sg_apery::Table;
use sg_factor::{FactorFault, catenary_of_element, factorizations};
use sg_rows::{CallFault, Fault, Made};
use std::alloc::Global;

/// Why factorizations are not listed, as the refusal of a row.
fn refusal(fault: FactorFault) -> CallFault
    ensures { result ≡ refusal_of fault }
{
    match fault {
        FactorFault::TooMany => CallFault::Script(Fault::TooMany),
        FactorFault::Memory(error) => CallFault::Memory(error),
    }
}

/// The factorizations. A semigroup that is not narrow is TooLarge, and more factorizations than the limit are TooMany.
pub(crate) fn factorizations_within(
    alloc: Global,
    table: &Table,
    element: i64,
) -> Result<Made, CallFault>
    requires { IsNumericalSemigroup table.now }
    ensures { Tells result (factorizations_row table.now element) }
{
    if !table.narrow() {
        return Err(CallFault::Script(Fault::TooLarge));
    }
    match factorizations(alloc, table, element) {
        Ok(vectors) => Ok(Made::Vectors(vectors)),
        Err(fault) => Err(refusal(fault)),
    }
}

/// The catenary degree. A semigroup that is not narrow is TooLarge, and more factorizations than the limit, which is less
/// than that of their list, are TooMany.
pub(crate) fn catenary_within(alloc: Global, table: &Table, element: i64) -> Result<Made, CallFault>
    requires { IsNumericalSemigroup table.now }
    ensures { Tells result (catenary_row table.now element) }
{
    if !table.narrow() {
        return Err(CallFault::Script(Fault::TooLarge));
    }
    match catenary_of_element(alloc, table, element) {
        Ok(degree) => Ok(Made::Natural(degree)),
        Err(fault) => Err(refusal(fault)),
    }
}
