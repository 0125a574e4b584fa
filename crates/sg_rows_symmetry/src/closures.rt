//! Closures.

ghost use Rattle.std.specs.Prelude.{IfOk};
ghost use Rattle.sg_lawful.specs.Spans.{IsShort};
ghost use Rattle.sg_rows_symmetry.specs.Closures.{IsClosure};

use crate::shape::Closure;
use sg_apery::Table;
use sg_closure::{arf_closure, med_closure, saturated_closure};
use std::alloc::{AllocError, Global};

/// The closure of a semigroup within the limit of the span.
pub(crate) fn closed(alloc: Global, closure: Closure, table: &Table) -> Result<Table, AllocError>
    requires { IsShort table.now }
    ensures { IfOk result (λ H. IsClosure closure table.now H) }
{
    match closure {
        Closure::Arf => arf_closure(alloc, table),
        Closure::Med => med_closure(alloc, table),
        Closure::Saturated => saturated_closure(alloc, table),
    }
}
