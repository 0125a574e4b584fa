//! The semigroup that given numbers generate.

ghost use Rattle.std.specs.Prelude.{◌≡◌, IfOk, OnOk, IfErr};
ghost use Rattle.std.specs.List.Sorted.{IsStrictlyIncreasing};
ghost use Rattle.sg_defs.specs.Membership.{IsNumericalSemigroup, IsMember, IsMinimal, Generates};
ghost use Rattle.sg_classes.specs.Fit.{IsFit};
ghost use Rattle.sg_apery.specs.Generators.{AreAccepted, AreRefused};

use crate::fault::TableFault;
use crate::table::Table;
use sg_classes::{MULTIPLICITY_LIMIT, are_small, is_numerical_semigroup, sort_distinct};
use sg_nat::Nats;
use sg_tables::{apery_list, apery_list_of_minimal};
use std::alloc::{AllocError, Global};

/// The table of ascending generators.
fn from_distinct(alloc: Global, entries: &[u64]) -> Result<Table, TableFault>
    requires { IsStrictlyIncreasing entries.now }
    ensures generated { IfOk result (λ table. Generates (IsMember entries.now) table) }
    ensures accepted { OnOk result (AreAccepted entries.now) }
    ensures refused { IfErr result (AreRefused entries.now) }
{
    if !are_small(entries) {
        return Err(TableFault::TooLarge);
    }
    if !is_numerical_semigroup(entries) {
        return Err(TableFault::BadArgument);
    }
    let multiplicity = entries[0];
    if multiplicity > MULTIPLICITY_LIMIT {
        return Err(TableFault::TooLarge);
    }
    let mut generators = Nats::new(alloc);
    let apery = apery_list(alloc, entries, &mut generators)?;
    Ok(Table::from_parts(generators, apery))
}

impl Table {
    /// The numerical semigroup that the given numbers generate, in any order and with repeats: the sums of their
    /// multiples. It is one exactly where they are positive with greatest common divisor 1 (Rosales and Garcia-Sanchez,
    /// Lemma 2.1).
    ///
    /// TooLarge where a number is at or past `GENERATOR_LIMIT`; then BadArgument where none is given, one is 0 or their
    /// greatest common divisor is not 1; then TooLarge where the least passes `MULTIPLICITY_LIMIT`.
    pub fn from_generators(alloc: Global, given: &[u64]) -> Result<Table, TableFault>
        ensures generated { IfOk result (λ table. Generates (IsMember given.now) table) }
        ensures accepted { OnOk result (AreAccepted given.now) }
        ensures refused { IfErr result (AreRefused given.now) }
    {
        let mut entries = Vec::from_slice(alloc, given)?;
        sort_distinct(&mut entries);
        from_distinct(alloc, &entries)
    }

    /// The numerical semigroup with these minimal generators, in about `e*m` steps for `e` generators and the multiplicity
    /// `m`. Where there are many, only sums up to a bound are made, which are mostly far fewer.
    pub fn of_minimal(alloc: Global, gens: &Nats) -> Result<Table, AllocError>
        requires semigroup { IsNumericalSemigroup gens.now }
        requires minimal { IsMinimal gens.now }
        requires fit { IsFit gens.now }
        ensures { IfOk result (λ table. table ≡ gens.now) }
    {
        let apery = apery_list_of_minimal(alloc, gens.as_slice())?;
        let generators = gens.try_clone()?;
        Ok(Table::from_parts(generators, apery))
    }
}
