//! Semigroups by the least member in each residue class: Kunz's conditions, and the minimal generators.

ghost use Rattle.std.specs.Prelude.{◌≡◌, ◌<◌, length, slice_index, IfOk, OnOk, IfErr, IsTrue, IsFalse};
ghost use Rattle.sg_defs.specs.Membership.{Generates};
ghost use Rattle.sg_classes.specs.Classes.{IsAboveEntry, IsKunz};
ghost use Rattle.sg_classes.specs.Fit.{IsFit, IsPastLimits};
ghost use Rattle.sg_classes.specs.Table.{IsAperyTable};
ghost use Rattle.sg_apery.specs.Conditions.{IsAperyRefused};
ghost use Rattle.sg_apery.specs.Fit.{IsSizeFault};

use crate::fault::TableFault;
use crate::table::Table;
use sg_classes::{MULTIPLICITY_LIMIT, are_small};
use sg_nat::Nats;
use sg_tables::{is_kunz, kunz_generators};
use std::alloc::{AllocError, Global};

/// Whether minimal generators are within the limits.
fn are_fit(generators: &[u64]) -> bool
    requires { 0 < length generators.now }
    ensures fit { IsTrue result → IsFit generators.now }
    ensures past { IsFalse result → IsPastLimits generators.now }
{
    generators[0] <= MULTIPLICITY_LIMIT && are_small(generators)
}

/// The table of minimal generators whose Apery list modulo the multiplicity is known.
fn with_list(alloc: Global, generators: Nats, list: &[u64]) -> Result<Table, AllocError>
    requires kunz { IsKunz list.now }
    requires generated { Generates (IsAboveEntry list.now) generators }
    requires fit { IsFit generators }
    requires multiplicity { length list.now ≡ slice_index generators 0 }
    ensures { IfOk result (λ table. table ≡ generators) }
{
    let apery = Vec::from_slice(alloc, list)?;
    Ok(Table::from_parts(generators, apery))
}

/// The semigroup of the numbers above their entries. TooLarge exactly where it is past the limits.
pub fn from_kunz(alloc: Global, list: &[u64]) -> Result<Table, TableFault>
    requires { IsKunz list.now }
    ensures generated { IfOk result (λ table. Generates (IsAboveEntry list.now) table) }
    ensures refused { IfErr result (IsSizeFault (IsAboveEntry list.now)) }
{
    let generators = kunz_generators(alloc, list)?;
    if !are_fit(generators.as_slice()) {
        return Err(TableFault::TooLarge);
    }
    if generators.as_slice()[0] == list.len() as u64 {
        let table = with_list(alloc, generators, list)?;
        return Ok(table);
    }
    let table = Table::of_minimal(alloc, &generators)?;
    Ok(table)
}

impl Table {
    /// The numerical semigroup that has this Apery list modulo the number of its entries: its members are the numbers
    /// that are at least the entry of their residue class. The list is one exactly where it meets Kunz's conditions, as
    /// `laws` has it (Rosales and Garcia-Sanchez, Numerical Semigroups, 2009).
    ///
    /// BadArgument where it does not; then TooLarge where the semigroup is past the limits.
    pub fn from_apery(alloc: Global, list: &[u64]) -> Result<Table, TableFault>
        ensures generated { IfOk result (λ table. Generates (IsAboveEntry list.now) table) }
        ensures apery { IfOk result (λ table. IsAperyTable table list.now) }
        ensures accepted { OnOk result (IsKunz list.now) }
        ensures refused { IfErr result (IsAperyRefused list.now) }
    {
        if !is_kunz(alloc, list)? {
            return Err(TableFault::BadArgument);
        }
        from_kunz(alloc, list)
    }
}
