//! The three lines of a drill.

ghost use Rattle.std.specs.Prelude.{◌≡◌, IfOk, string_bytes};
ghost use Rattle.sg_drill.specs.Summary.{summary_of};
ghost use Rattle.sg_drill.specs.Tally.{printed};

use crate::tally::Tally;
use std::alloc::{AllocError, Global};

/// The three lines of a drill with so many statements, which printed what the tally took: `statements N`, `bytes B` and
/// `sum C`.
///
/// Refused only for want of memory.
pub fn drill_lines(alloc: Global, statements: u64, tally: &Tally) -> Result<String, AllocError>
    ensures { IfOk result (λ text. string_bytes text ≡ summary_of statements (printed tally.now)) }
{
    let count = tally.count();
    let sum = tally.sum();
    format!(in alloc; "statements {statements}\nbytes {count}\nsum {sum}\n")
}
