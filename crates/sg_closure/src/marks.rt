//! Sets of naturals by marks on the numbers up to the span, and the semigroup of such a set.

ghost use Rattle.std.specs.Prelude.{◌≡◌, ◌+◌, ◌<◌, ◌≤◌, ◌⊎◌, ◌↔◌, ℕ, length, slice_index, Contains, EachIndex, IfOk, IsTrue};
ghost use Rattle.sg_defs.specs.Membership.{Generates};
ghost use Rattle.sg_closure.specs.Marks.{AreGeneratorMarks, AreLeastIn, IsAbove, IsIn, IsLeastIn};
ghost use Rattle.sg_lawful.specs.Spans.{IsShort};

use sg_apery::{MULTIPLICITY_LIMIT, SPAN_LIMIT, Table, TableFault};
use std::alloc::{AllocError, Global};

/// Whether a number is marked or past the marks.
fn is_in(marks: &[bool], n: usize) -> bool
    ensures { IsTrue result ↔ IsIn marks.now n }
{
    n >= marks.len() || marks[n]
}

/// Marks a number, if it is not past the marks.
pub fn mark(marks: &mut [bool], n: usize)
    ensures length { length marks.new ≡ length marks.old }
    ensures marked { (k : ℕ) → IsIn marks.new k ↔ (IsIn marks.old k ⊎ (k ≡ n)) }
{
    if n < marks.len() {
        marks[n] = true;
    }
}

/// Marks each of the given numbers.
fn mark_each(marks: &mut [bool], numbers: &[u64])
    ensures length { length marks.new ≡ length marks.old }
    ensures marked { (k : ℕ) → IsIn marks.new k ↔ (IsIn marks.old k ⊎ Contains numbers.now k) }
{
    for n in numbers {
        mark(marks, *n as usize);
    }
}

/// Marks 0 and the generators among the numbers up to the span.
pub fn generator_marks(alloc: Global, table: &Table) -> Result<Vec<bool>, AllocError>
    requires { IsShort table.now }
    ensures { IfOk result (λ marks. AreGeneratorMarks table.now marks.items) }
{
    let mut marks = vec![in alloc; false; table.span() as usize + 1]?;
    mark(&mut marks, 0);
    mark_each(&mut marks, table.generators().as_slice());
    Ok(marks)
}

/// The least number of a residue class that is marked or past the marks.
fn least_in(marks: &[bool], modulus: usize, class: usize) -> usize
    requires short { length marks.now ≤ SPAN_LIMIT + 1 }
    requires small { modulus ≤ MULTIPLICITY_LIMIT }
    requires class { class < modulus }
    ensures least { IsLeastIn marks.now modulus class result }
{
    let mut n = class;
    while !is_in(marks, n) {
        n += modulus;
    }
    n
}

/// The least number of each residue class that is marked or past the marks.
fn class_list(alloc: Global, marks: &[bool], modulus: usize) -> Result<Vec<u64>, AllocError>
    requires short { length marks.now ≤ SPAN_LIMIT + 1 }
    requires small { modulus ≤ MULTIPLICITY_LIMIT }
    ensures { IfOk result (λ list. AreLeastIn marks.now modulus list.items) }
{
    let mut list = Vec::new(alloc);
    for class in 0..modulus {
        list.push(least_in(marks, modulus, class) as u64)?;
    }
    Ok(list)
}

/// The semigroup of the numbers that are marked or past the marks. It is within the limits, as it holds all of the
/// given one, whose span is short.
pub fn marked_table(alloc: Global, table: &Table, marks: &[bool]) -> Result<Table, AllocError>
    requires span { IsShort table.now }
    requires short { length marks.now ≤ SPAN_LIMIT + 1 }
    requires above { IsAbove table.now marks.now }
    ensures generated { IfOk result (λ found. Generates (IsIn marks.now) found) }
{
    let list = class_list(alloc, marks, table.apery().len())?;
    match Table::from_apery(alloc, &list) {
        Ok(found) => Ok(found),
        Err(TableFault::Memory(error)) => Err(error),
        Err(TableFault::BadArgument) => unreachable!(),
        Err(TableFault::TooLarge) => unreachable!(),
    }
}
