//! Maximal embedding dimension.

ghost use Rattle.std.specs.Prelude.{◌≡◌, ◌+◌, ◌<◌, ◌≤◌, ◌↔◌, ℕ, length, slice_index, EachIndex, IfOk, IsTrue};
ghost use Rattle.sg_defs.specs.Membership.{Holds, IsMember, IsMinimal, IsNumericalSemigroup};
ghost use Rattle.sg_defs.specs.Closures.{IsMed, IsMedClosure};
ghost use Rattle.sg_closure.specs.Marks.{IsIn};
ghost use Rattle.sg_lawful.specs.Spans.{IsShort};
ghost use Rattle.sg_closure.specs.Differences.{AreDifferences, GeneratesDifferences, IsDifference, IsShifted};
ghost use Rattle.sg_classes.specs.Fit.{IsFit};

use crate::marks::marked_table;
use sg_apery::{SPAN_LIMIT, Table, TableFault};
use sg_nat::Nats;
use std::alloc::{AllocError, Global};

/// Whether there are as many minimal generators as the multiplicity, the most that there can be: then `x + y - m` is a
/// member for all members `x` and `y` above 0 and the multiplicity `m` (Rosales and Garcia-Sanchez, Numerical
/// Semigroups, 2009, Proposition 3.12). It needs no table and takes no memory.
pub fn is_med_by_generators(generators: &Nats) -> bool
    requires semigroup { IsNumericalSemigroup generators.now }
    requires minimal { IsMinimal generators.now }
    ensures { IsTrue result ↔ IsMed generators.now }
{
    generators.len() as u64 == generators.as_slice()[0]
}

/// The same of a table's semigroup.
pub fn is_med(table: &Table) -> bool
    ensures { IsTrue result ↔ IsMed table.now }
{
    is_med_by_generators(table.generators())
}

/// The multiplicity itself, or its difference with a greater generator.
fn difference(multiplicity: u64, generator: u64) -> u64
    requires { multiplicity ≤ generator }
    ensures { IsDifference multiplicity generator result }
{
    if generator == multiplicity {
        return multiplicity;
    }
    generator - multiplicity
}

/// The multiplicity, and its differences with the other generators.
fn difference_list(alloc: Global, generators: &[u64]) -> Result<Vec<u64>, AllocError>
    requires not_empty { 0 < length generators.now }
    requires least { EachIndex generators.now (λ k. slice_index generators.now 0 ≤ slice_index generators.now k) }
    ensures { IfOk result (λ list. AreDifferences generators.now list.items) }
{
    let multiplicity = generators[0];
    let mut list = Vec::new(alloc);
    for generator in generators {
        list.push(difference(multiplicity, *generator))?;
    }
    Ok(list)
}

/// The semigroup that the multiplicity and its differences with the other minimal generators generate.
fn differences(alloc: Global, generators: &Nats) -> Result<Table, AllocError>
    requires semigroup { IsNumericalSemigroup generators.now }
    requires minimal { IsMinimal generators.now }
    requires fit { IsFit generators.now }
    ensures { IfOk result (λ found. GeneratesDifferences generators.now found) }
{
    let list = difference_list(alloc, generators.as_slice())?;
    match Table::from_generators(alloc, &list) {
        Ok(found) => Ok(found),
        Err(TableFault::Memory(error)) => Err(error),
        Err(TableFault::BadArgument) => unreachable!(),
        Err(TableFault::TooLarge) => unreachable!(),
    }
}

/// Whether a number is 0, or the sum of the multiplicity and a member.
fn is_shifted(differences: &Table, multiplicity: u64, n: u64) -> bool
    requires { n ≤ SPAN_LIMIT }
    ensures { IsTrue result ↔ IsShifted differences.now multiplicity n }
{
    if n == 0 {
        return true;
    }
    n >= multiplicity && differences.contains((n - multiplicity) as i64)
}

/// Marks, among the numbers up to the span, 0 and the sums of the multiplicity and a member.
fn shifted_marks(alloc: Global, table: &Table, differences: &Table) -> Result<Vec<bool>, AllocError>
    requires span { IsShort table.now }
    requires above { Holds differences.now table.now }
    ensures short { IfOk result (λ marks. length marks.items ≤ SPAN_LIMIT + 1) }
    ensures same { IfOk result (λ marks. (n : ℕ) → IsIn marks.items n ↔ IsShifted differences.now (slice_index table.now 0) n) }
{
    let multiplicity = table.apery().len() as u64;
    let mut marks = Vec::new(alloc);
    for n in 0..table.span() + 1 {
        marks.push(is_shifted(differences, multiplicity, n))?;
    }
    Ok(marks)
}

/// The least numerical semigroup of maximal embedding dimension among those of the same multiplicity that hold all of
/// the given one: 0 together with the multiplicity and the semigroup that the multiplicity and its differences with the
/// other generators generate (Rosales and Garcia-Sanchez, Numerical Semigroups, 2009).
pub fn med_closure(alloc: Global, table: &Table) -> Result<Table, AllocError>
    requires { IsShort table.now }
    ensures { IfOk result (λ closure. IsMedClosure table.now closure) }
{
    let differences = differences(alloc, table.generators())?;
    let marks = shifted_marks(alloc, table, &differences)?;
    marked_table(alloc, table, &marks)
}
