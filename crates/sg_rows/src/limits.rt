//! Limits that rows share.

ghost use Rattle.std.specs.Prelude.{◌≤◌, ◌↔◌, IsTrue, IsFalse};
ghost use Rattle.sg_lawful.specs.Spans.{IsWide, IsShort};

use sg_apery::{SPAN_LIMIT, Table};
use sg_value::WEIGHT_LIMIT;

/// Whether the Frobenius number, the multiplicity and the greatest generator together pass the limit of the work that
/// grows with them.
pub fn is_wide(table: &Table) -> bool
    ensures wide { IsTrue result → IsWide table.now }
    ensures short { IsFalse result → IsShort table.now }
{
    table.span() > SPAN_LIMIT
}

/// Whether a list of so many entries, none of which is a list, is too heavy for a value: it weighs 1 more.
pub fn is_heavy(entries: u64) -> bool
    ensures { IsTrue result ↔ (WEIGHT_LIMIT ≤ entries) }
{
    entries >= WEIGHT_LIMIT
}
