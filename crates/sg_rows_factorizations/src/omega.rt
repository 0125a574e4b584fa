//! Omega primality.

ghost use Rattle.std.specs.Prelude.{IsFalse, IsTrue};
ghost use Rattle.sg_defs.specs.Membership.{IsMinimal, IsNumericalSemigroup};
ghost use Rattle.sg_omega.specs.Limits.{IsWithinLimit};
ghost use Rattle.sg_rows.specs.Made.{Tells};
ghost use Rattle.sg_rows_factorizations.specs.Elements.{omega_row, IsPastOmega};

use sg_apery::Table;
use sg_omega::{OMEGA_LIMIT, omega, omega_of_element};
use sg_rows::{CallFault, Fault, Made, OfTable};
use std::alloc::Global;

/// Whether a number and the span together are past the limit.
fn is_past(table: &Table, n: u64) -> bool
    ensures past { IsTrue result → IsPastOmega table.now n }
    ensures within { IsFalse result → IsWithinLimit table.now n }
{
    let span = table.span();
    n > OMEGA_LIMIT || span > OMEGA_LIMIT - n
}

/// The omega primality of a member: the least number N such that below each vector above the member lies one of length
/// at most N that is above it as well. An integer that is no member is BadArgument; a semigroup that is not narrow is
/// TooLarge, and so is a member that is past the limit together with the span.
pub(crate) fn omega_within(alloc: Global, table: &Table, element: i64) -> Result<Made, CallFault>
    requires semigroup { IsNumericalSemigroup table.now }
    requires minimal { IsMinimal table.now }
    ensures { Tells result (omega_row table.now element) }
{
    if !table.contains(element) {
        return Err(CallFault::Script(Fault::BadArgument));
    }
    if !table.narrow() {
        return Err(CallFault::Script(Fault::TooLarge));
    }
    if is_past(table, element as u64) {
        return Err(CallFault::Script(Fault::TooLarge));
    }
    Ok(Made::Natural(omega_of_element(alloc, table, element as u64)?))
}

/// The omega primality of a numerical semigroup: the greatest of those of its minimal generators. A semigroup that is not
/// narrow is TooLarge, and so is one whose greatest generator is past the limit together with the span.
#[derive(Clone, Copy)]
pub struct OmegaOfSemigroup;

impl OfTable for OmegaOfSemigroup {
    ghost use Rattle.sg_rows_factorizations.specs.Elements.{semigroup_omega_row};

    ghost says = { λ fact G. semigroup_omega_row G };

    fn tell(self, alloc: Global, table: &Table) -> Result<Made, CallFault> {
        let generators = table.generators().as_slice();
        if !table.narrow() {
            return Err(CallFault::Script(Fault::TooLarge));
        }
        if is_past(table, generators[generators.len() - 1]) {
            return Err(CallFault::Script(Fault::TooLarge));
        }
        Ok(Made::Natural(omega(alloc, table)?))
    }
}
