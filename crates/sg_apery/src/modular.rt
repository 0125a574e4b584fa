//! Modular and proportionally modular semigroups.

ghost use Rattle.std.specs.Prelude.{IfOk, OnOk, IfErr};
ghost use Rattle.sg_defs.specs.Membership.{Generates};
ghost use Rattle.sg_small.specs.Modular.{AreModular, IsModular, IsProportional};
ghost use Rattle.sg_apery.specs.Modular.{IsModularRefused, IsProportionalRefused};

use crate::fault::TableFault;
use crate::small::from_members;
use crate::table::Table;
use sg_classes::MODULUS_LIMIT;
use sg_small::members_up_to;
use std::alloc::Global;

impl Table {
    /// The numbers `x` with `a x mod b <= x`, which are a numerical semigroup (Rosales and Garcia-Sanchez, Numerical
    /// Semigroups, 2009).
    ///
    /// TooLarge where `b` passes `MODULUS_LIMIT`; then BadArgument where `a` or `b` is 0; then TooLarge where the
    /// semigroup is past the limits.
    pub fn modular(alloc: Global, a: u64, b: u64) -> Result<Table, TableFault>
        ensures generated { IfOk result (λ table. Generates (IsModular a b) table) }
        ensures accepted { OnOk result (AreModular a b 1) }
        ensures refused { IfErr result (IsModularRefused a b) }
    {
        Table::prop_modular(alloc, a, b, 1)
    }

    /// The numbers `x` with `a x mod b <= c x`, which are a numerical semigroup (Rosales and Garcia-Sanchez, Numerical
    /// Semigroups, 2009).
    ///
    /// TooLarge where `b` passes `MODULUS_LIMIT`; then BadArgument where `a`, `b` or `c` is 0; then TooLarge where the
    /// semigroup is past the limits.
    pub fn prop_modular(alloc: Global, a: u64, b: u64, c: u64) -> Result<Table, TableFault>
        ensures generated { IfOk result (λ table. Generates (IsProportional a b c) table) }
        ensures accepted { OnOk result (AreModular a b c) }
        ensures refused { IfErr result (IsProportionalRefused a b c) }
    {
        if b > MODULUS_LIMIT {
            return Err(TableFault::TooLarge);
        }
        if a == 0 || b == 0 || c == 0 {
            return Err(TableFault::BadArgument);
        }
        let list = members_up_to(alloc, a, b, c)?;
        from_members(alloc, &list)
    }
}
