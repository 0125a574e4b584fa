//! Which semigroups have their minimal presentation written out.

ghost use Rattle.std.specs.Prelude.{IsTrue, ◌↔◌};
ghost use Rattle.sg_betti.specs.Limits.{IsPresentable};

use sg_apery::Table;

/// The greatest span of a semigroup whose Betti elements and presentation are written out.
pub const PRESENTATION_SPAN_LIMIT: u64 = 16_777_216;

/// Whether there are so few generators, and the span is so small, that the Betti elements and the presentation are
/// written out. It takes no memory.
pub fn is_presentable(t: &Table) -> bool
    ensures { IsTrue result ↔ IsPresentable t.now }
{
    t.narrow() && t.span() <= PRESENTATION_SPAN_LIMIT
}
