//! The canonical and the maximal ideal of a semigroup.

ghost use Rattle.std.specs.Prelude.{◌≡◌, ◌<◌, pos, neg_ℤ, ◌≤ℤ◌, length, map, slice_index, EachIndex, IfOk, IfErr};
ghost use Rattle.sg_defs.specs.Listings.{ListsIntegers};
ghost use Rattle.sg_defs.specs.Invariants.{IsPseudoFrobenius};
ghost use Rattle.sg_defs.specs.Ideals.{IsInCanonical, IsInMaximal};
ghost use Rattle.sg_ideal.specs.Faults.{IsMemory, IsSizeFault};
ghost use Rattle.sg_ideal.specs.Value.{IsIdealOf, IsReflected, AreWithin};

use crate::fault::IdealFault;
use crate::ideal::Ideal;
use sg_apery::{GENERATOR_LIMIT, Table};
use sg_invar::frobenius;
use sg_nat::Ints;
use std::alloc::{AllocError, Global};

/// The numbers as integers.
fn integers(alloc: Global, numbers: &[u64]) -> Result<Ints, AllocError>
    requires { EachIndex numbers.now (λ k. slice_index numbers.now k < GENERATOR_LIMIT) }
    ensures { IfOk result (λ list. list ≡ map (λ n. pos n) numbers.now) }
{
    let mut list = Ints::new(alloc);
    for number in numbers {
        list.push(*number as i64)?;
    }
    Ok(list)
}

/// What was refused, where no more than memory was wanting.
fn want_of_memory(fault: IdealFault) -> AllocError
    requires { IsMemory fault }
{
    match fault {
        IdealFault::BadArgument => unreachable!(),
        IdealFault::TooLarge => unreachable!(),
        IdealFault::Memory(error) => error,
    }
}

/// The members but 0, an ideal that the minimal generators of the semigroup generate.
pub fn maximal(alloc: Global, t: &Table) -> Result<Ideal, AllocError>
    ensures { IfOk result (IsIdealOf t.now (IsInMaximal t.now)) }
{
    let generators = integers(alloc, t.generators().as_slice())?;
    match Ideal::generated(alloc, t, generators.as_slice()) {
        Ok(ideal) => Ok(ideal),
        Err(fault) => Err(want_of_memory(fault)),
    }
}

/// The numbers less each of the others, the last first.
fn reflected(alloc: Global, highest: i64, numbers: &[i64]) -> Result<Ints, AllocError>
    requires { AreWithin highest numbers.now }
    ensures { IfOk result (IsReflected highest numbers.now) }
{
    let mut list = Ints::new(alloc);
    for place in 0..numbers.len() {
        list.push(highest - numbers[numbers.len() - 1 - place])?;
    }
    Ok(list)
}

/// The canonical ideal: the integers `x` for which the Frobenius number less `x` is no member. The Frobenius number less
/// each pseudo-Frobenius number is a minimal generator of it, and there are no others (Rosales and Garcia-Sanchez,
/// Numerical Semigroups, 2009). `pf` are the table's pseudo-Frobenius numbers.
///
/// TooLarge where a minimal generator's absolute value is `IDEAL_GENERATOR_LIMIT` or more, and no other fault.
pub fn canonical(alloc: Global, t: &Table, pf: &Ints) -> Result<Ideal, IdealFault>
    requires { ListsIntegers (IsPseudoFrobenius t.now) pf.now }
    ensures made { IfOk result (IsIdealOf t.now (IsInCanonical t.now)) }
    ensures refused { IfErr result (IsSizeFault t.now (IsInCanonical t.now)) }
{
    let generators = reflected(alloc, frobenius(t), pf.as_slice())?;
    Ideal::generated(alloc, t, generators.as_slice())
}
