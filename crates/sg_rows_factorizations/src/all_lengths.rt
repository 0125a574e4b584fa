//! What the minimal generators tell of the lengths of all elements.

ghost use Rattle.sg_lawful.specs.Lawful.{IsLawfulList};
ghost use Rattle.sg_rows.specs.Made.{Tells};
ghost use Rattle.sg_rows_factorizations.specs.Elements.{elasticity_row};

use sg_factor::elasticity_of;
use sg_nat::Nats;
use sg_rows::{CallFault, Made, OfGenerators, quotient};
use std::alloc::Global;

/// What is read off the minimal generators.
#[derive(Clone, Copy)]
pub enum AllLengths {
    /// The elasticity: the greatest quotient of two lengths of one element above 0. It is an integer where its
    /// denominator is 1.
    Elasticity,
}

impl OfGenerators for AllLengths {
    ghost use Rattle.sg_rows_factorizations.specs.Elements.{lengths_of_all_row};

    ghost says = { λ fact G. lengths_of_all_row fact G };

    fn tell(self, _alloc: Global, generators: &Nats) -> Result<Made, CallFault> {
        match self {
            AllLengths::Elasticity => elasticity_told(generators),
        }
    }
}

/// The elasticity.
fn elasticity_told(generators: &Nats) -> Result<Made, CallFault>
    requires { IsLawfulList generators.now }
    ensures { Tells result (elasticity_row generators.now) }
{
    let found = elasticity_of(generators);
    Ok(quotient(found))
}
