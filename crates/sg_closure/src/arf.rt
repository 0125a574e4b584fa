//! Arf semigroups.

ghost use Rattle.std.specs.Prelude.{◌≡◌, ◌+◌, ◌<◌, ◌≤◌, ◌↔◌, ℕ, List, length, IfOk, IsTrue};
ghost use Rattle.sg_defs.specs.Membership.{IsMember};
ghost use Rattle.sg_defs.specs.Closures.{IsArf, IsArfClosure};
ghost use Rattle.sg_closure.specs.Marks.{IsIn};
ghost use Rattle.sg_lawful.specs.Spans.{IsShort};
ghost use Rattle.sg_closure.specs.Steps.{HasSteps};

use crate::marks::{generator_marks, mark, marked_table};
use sg_apery::{SPAN_LIMIT, Table};
use std::alloc::{AllocError, Global};

/// Marks, after each marked number, the one as far after it as the one before it is away. The distances are the
/// multiplicities of the semigroups that come from the first by `L`, where `L` replaces the generators but the least
/// by their differences with it; they end at 1.
fn mark_steps(marks: &mut [bool])
    requires not_empty { 0 < length marks.old }
    requires short { length marks.old ≤ SPAN_LIMIT + 1 }
    requires zero { IsIn marks.old 0 }
    ensures length { length marks.new ≡ length marks.old }
    ensures keeps { (n : ℕ) → IsIn marks.old n → IsIn marks.new n }
    ensures steps { HasSteps marks.new }
    ensures least { (K : List ℕ) → IsArf K → ((n : ℕ) → IsIn marks.old n → IsMember K n) → (n : ℕ) → IsIn marks.new n → IsMember K n }
{
    let mut last = 0;
    for n in 1..marks.len() {
        if marks[n] {
            mark(marks, 2 * n - last);
            last = n;
        }
    }
}

/// The least Arf numerical semigroup that holds all of the given one, in time that grows with the span: 0 together with
/// the multiplicity and the Arf closure of the semigroup that the multiplicity and its differences with the other
/// generators generate (Rosales and Garcia-Sanchez, Numerical Semigroups, 2009).
pub fn arf_closure(alloc: Global, table: &Table) -> Result<Table, AllocError>
    requires { IsShort table.now }
    ensures { IfOk result (λ closure. IsArfClosure table.now closure) }
{
    let mut marks = generator_marks(alloc, table)?;
    mark_steps(&mut marks);
    marked_table(alloc, table, &marks)
}

/// Whether `x + y - z` is a member for all members `x >= y >= z`: exactly where the semigroup is its own Arf closure.
pub fn is_arf(alloc: Global, table: &Table) -> Result<bool, AllocError>
    requires { IsShort table.now }
    ensures { IfOk result (λ holds. IsTrue holds ↔ IsArf table.now) }
{
    let closure = arf_closure(alloc, table)?;
    Ok(closure.generators().as_slice() == table.generators().as_slice())
}
