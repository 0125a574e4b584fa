//! Which semigroups have their gluings written out.

ghost use Rattle.std.specs.Prelude.{IsTrue, ◌↔◌};
ghost use Rattle.sg_glue.specs.Limits.{IsGluable};

use sg_apery::Table;

/// The greatest number of minimal generators of a semigroup whose gluings are written out.
pub const GLUING_GENERATORS: u64 = 16;

/// The greatest span of such a semigroup.
pub const GLUING_SPAN_LIMIT: u64 = 16_777_216;

/// Whether there are so few minimal generators, and the span is so small, that the gluings are written out. It takes no
/// memory.
pub fn is_gluable(t: &Table) -> bool
    ensures { IsTrue result ↔ IsGluable t.now }
{
    let few = t.generators().len() as u64 <= GLUING_GENERATORS;
    few && t.span() <= GLUING_SPAN_LIMIT
}
