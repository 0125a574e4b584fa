//! Saturated semigroups.

ghost use Rattle.std.specs.Prelude.{◌≡◌, ◌+◌, ◌<◌, ◌≤◌, ◌↔◌, ℕ, length, IfOk, IsTrue};
ghost use Rattle.sg_defs.specs.Membership.{IsMinimal, IsNumericalSemigroup};
ghost use Rattle.sg_defs.specs.Closures.{IsSaturated, IsSaturatedClosure};
ghost use Rattle.sg_closure.specs.Marks.{AreGeneratorMarks, IsIn};
ghost use Rattle.sg_lawful.specs.Spans.{IsShort};
ghost use Rattle.sg_closure.specs.Saturation.{IsInSaturation};
ghost use Rattle.std.specs.Int.{IsGcd};

use crate::marks::{generator_marks, marked_table};
use sg_apery::Table;
use sg_nat::gcd;
use std::alloc::{AllocError, Global};

/// The greatest common divisor with a number, if that is marked.
fn next_divisor(marks: &[bool], divisor: u64, n: usize) -> u64
    requires { n < length marks.now }
    ensures marked { IsIn marks.now n → IsGcd divisor n result }
    ensures unmarked { (IsIn marks.now n → ⊥) → result ≡ divisor }
{
    if marks[n] {
        return gcd(divisor, n as u64);
    }
    divisor
}

/// Marks, from the multiplicity on, the multiples of the greatest common divisor of the generators so far.
fn mark_multiples(table: &Table, marks: &mut [bool])
    requires { AreGeneratorMarks table.now marks.old }
    ensures semigroup { IsNumericalSemigroup table.now }
    ensures minimal { IsMinimal table.now }
    ensures length { length marks.new ≡ length marks.old }
    ensures multiples { (n : ℕ) → n < length marks.new → IsIn marks.new n ↔ IsInSaturation table.now n }
{
    let mut divisor = 0;
    let multiplicity = table.generators().as_slice()[0] as usize;
    for n in multiplicity..marks.len() {
        divisor = next_divisor(marks, divisor, n);
        marks[n] = n as u64 % divisor == 0;
    }
}

/// The least saturated numerical semigroup that holds all of the given one: 0, and each number from the multiplicity on
/// that the greatest common divisor of the generators up to it divides. In time that grows with the span.
pub fn saturated_closure(alloc: Global, table: &Table) -> Result<Table, AllocError>
    requires { IsShort table.now }
    ensures { IfOk result (λ closure. IsSaturatedClosure table.now closure) }
{
    let mut marks = generator_marks(alloc, table)?;
    mark_multiples(table, &mut marks);
    marked_table(alloc, table, &marks)
}

/// Whether a member, together with any integer combination of members up to it that is not negative, is a member:
/// exactly where the semigroup is its own saturated closure.
pub fn is_saturated(alloc: Global, table: &Table) -> Result<bool, AllocError>
    requires { IsShort table.now }
    ensures { IfOk result (λ holds. IsTrue holds ↔ IsSaturated table.now) }
{
    let closure = saturated_closure(alloc, table)?;
    Ok(closure.generators().as_slice() == table.generators().as_slice())
}
