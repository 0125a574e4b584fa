//! The Apery list modulo a member.

use sg_apery::{APERY_MODULUS_LIMIT, Table};
use sg_rows::{CallFault, Fault, Made, OfTableAndInteger};
use std::alloc::Global;

/// The Apery list modulo a member `n` above 0: entry `i` is the least member congruent to `i` (Rosales and
/// Garcia-Sanchez, Numerical Semigroups, 2009). `n` past the limit is TooLarge; `n` below 1 or outside of the semigroup is
/// BadArgument.
#[derive(Clone, Copy)]
pub struct AperyModulo;

impl OfTableAndInteger for AperyModulo {
    ghost use Rattle.sg_rows_invariants.specs.Facts.{apery_modulo_row};

    ghost says = { λ fact G n. apery_modulo_row G n };

    fn tell(self, alloc: Global, table: &Table, integer: i64) -> Result<Made, CallFault> {
        if integer > APERY_MODULUS_LIMIT as i64 {
            return Err(CallFault::Script(Fault::TooLarge));
        }
        if integer < 1 {
            return Err(CallFault::Script(Fault::BadArgument));
        }
        if !table.contains(integer) {
            return Err(CallFault::Script(Fault::BadArgument));
        }
        Ok(Made::Naturals(table.apery_at(alloc, integer as u64)?))
    }
}
