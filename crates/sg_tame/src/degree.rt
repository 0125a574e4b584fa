//! The tame degree.

ghost use Rattle.std.specs.Prelude.{◌<◌, ◌^◌, length, IfOk, OnOk, IfErr};
ghost use Rattle.sg_apery.specs.Fit.{IsNarrow};
ghost use Rattle.sg_defs.specs.Membership.{IsFactorization};
ghost use Rattle.sg_factor.specs.Faults.{IsRefused};
ghost use Rattle.sg_nonunique.specs.Counts.{Exceeds};
ghost use Rattle.sg_tame.specs.Answers.{HasTooMany, IsTameAnswer, IsWithinLimit};
ghost use Rattle.sg_tame.specs.Nearest.{AreAllOf, AreNearAt, AreNearBy, AreRowsNear, HavePositive, IsLeastFrom, IsRowNear};
ghost use Rattle.sg_tame.specs.Tame.{IsTame};

use crate::answer::TameAnswer;
use crate::limits::COMPARED_LIMIT;
use crate::nearest::nearest;
use crate::needed::{is_lowered, is_needed, is_used_minimally};
use sg_apery::Table;
use sg_factor::{FactorFault, factorizations_within};
use sg_nat::Nats;
use std::alloc::{AllocError, Global};

/// The greater of `enough` and the least distance from one of the vectors to one with a positive number at the place,
/// where that vector uses only generators in whose Apery sets the member lies.
fn raised_to(t: &Table, member: u64, rows: &[Nats], from: usize, place: usize, enough: u64) -> u64
    requires positive { HavePositive (length t.now) rows.now place }
    requires from { from < length rows.now }
    ensures { IsLeastFrom enough (IsRowNear t.now member rows.now place from) result }
{
    if !is_used_minimally(t, member, rows[from].as_slice()) {
        return enough;
    }
    nearest(rows, from, place, enough)
}

/// The same over all vectors.
fn raised_from(t: &Table, member: u64, rows: &[Nats], place: usize, enough: u64) -> u64
    requires { HavePositive (length t.now) rows.now place }
    ensures { IsLeastFrom enough (AreRowsNear t.now member rows.now place) result }
{
    let mut greatest = enough;
    for from in 0..rows.len() {
        greatest = raised_to(t, member, rows, from, place, greatest);
    }
    greatest
}

/// The same over the factorizations of `v` that are minimal above the generator at the place.
fn raised_at(t: &Table, v: u64, rows: &[Nats], place: usize, enough: u64) -> u64
    requires place { place < length t.now }
    requires rows { AreAllOf t.now v rows.now }
    ensures { IsLeastFrom enough (AreNearAt t.now v place) result }
{
    let generator = t.generators().as_slice()[place];
    if !is_lowered(t, v, generator) {
        return enough;
    }
    raised_from(t, v - generator, rows, place, enough)
}

/// The same over all places.
fn raised_by(t: &Table, v: u64, rows: &[Nats], enough: u64) -> u64
    requires { AreAllOf t.now v rows.now }
    ensures { IsLeastFrom enough (AreNearBy t.now v) result }
{
    let mut greatest = enough;
    let places = t.generators().len();
    for place in 0..places {
        greatest = raised_at(t, v, rows, place, greatest);
    }
    greatest
}

/// The same for a number whose factorizations are listed first.
fn raised_over(alloc: Global, t: &Table, v: u64, enough: u64) -> Result<u64, FactorFault>
    requires { v < 2 ^ 63 }
    ensures degree { IfOk result (IsLeastFrom enough (AreNearBy t.now v)) }
    ensures few { OnOk result (Exceeds (IsFactorization t.now v) COMPARED_LIMIT → ⊥) }
    ensures many { IfErr result (IsRefused (Exceeds (IsFactorization t.now v) COMPARED_LIMIT)) }
{
    let rows = factorizations_within(alloc, t, v, COMPARED_LIMIT)?;
    Ok(raised_by(t, v, rows.as_slice(), enough))
}

/// The tame degree, where no number that is looked at has too many factorizations. Each is looked at once.
fn degree(alloc: Global, t: &Table) -> Result<u64, FactorFault>
    requires { IsWithinLimit t.now }
    ensures degree { IfOk result (IsTame t.now) }
    ensures few { OnOk result (HasTooMany t.now → ⊥) }
    ensures many { IfErr result (IsRefused (HasTooMany t.now)) }
{
    let generators = t.generators().as_slice();
    let end = generators[generators.len() - 1] + t.span();
    let mut greatest = 0;
    for v in 0..end {
        if is_needed(t, v) {
            greatest = raised_over(alloc, t, v, greatest)?;
        }
    }
    Ok(greatest)
}

/// The tame degree of a numerical semigroup: the least number N such that, for each element from which a generator can
/// be taken away while an element is left, each of its factorizations is at distance at most N from one that uses the
/// generator (Geroldinger and Halter-Koch, Non-Unique Factorizations, 2006). The semigroup is narrow, and its greatest
/// generator and the span are at most `TAME_LIMIT` together.
///
/// TooMany exactly where some sum of a generator and of an element of the Apery set of a generator has more than
/// `COMPARED_LIMIT` factorizations; want of memory is the one refusal.
pub fn tame(alloc: Global, t: &Table) -> Result<TameAnswer, AllocError>
    requires narrow { IsNarrow t.now }
    requires small { IsWithinLimit t.now }
    ensures { IfOk result (IsTameAnswer t.now) }
{
    match degree(alloc, t) {
        Ok(degree) => Ok(TameAnswer::Degree(degree)),
        Err(FactorFault::TooMany) => Ok(TameAnswer::TooMany),
        Err(FactorFault::Memory(error)) => Err(error),
    }
}
