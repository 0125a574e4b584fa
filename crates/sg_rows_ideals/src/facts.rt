//! Commands that tell facts of an ideal.

ghost use Rattle.std.specs.Prelude.{Ok};
ghost use Rattle.sg_lawful.specs.Lawful.{IsLawfulIdeal};
ghost use Rattle.sg_rows_ideals.specs.Rows.{fact_row, over};
ghost use Rattle.sg_rows.specs.Made.{Tells};

use sg_nat::{Ints, Nats};
use sg_rows::{CallFault, Made};

/// A fact of an ideal. It asks for nothing.
#[derive(Clone, Copy)]
pub enum IdealFact {
    /// The semigroup that it is an ideal of.
    Ambient,
    /// The minimal generators, ascending.
    Generators,
}

/// A fact of the ideal with these minimal lists.
pub fn fact_of(fact: IdealFact, ambient: &Nats, generators: &Ints) -> Result<Made, CallFault>
    requires { IsLawfulIdeal ambient.now generators.now }
    ensures { Tells result (fact_row fact (over ambient.now generators.now)) }
{
    match fact {
        IdealFact::Ambient => Ok(Made::Semigroup(ambient.try_clone()?)),
        IdealFact::Generators => Ok(Made::Integers(generators.try_clone()?)),
    }
}
