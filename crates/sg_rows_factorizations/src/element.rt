//! What the factorizations of an element tell.

use crate::counted::{catenary_within, factorizations_within};
use crate::measured::{deltas_within, lengths_within};
use crate::omega::omega_within;
use sg_apery::Table;
use sg_rows::{CallFault, Made, OfTableAndInteger};
use std::alloc::Global;

/// What is told of a semigroup and an integer. An integer that is no member has no factorization, no length and no
/// delta, and catenary degree 0.
#[derive(Clone, Copy)]
pub enum ElementFact {
    /// The catenary degree: the least number N such that any two factorizations are joined by steps of distance at most N.
    CatenaryDegree,
    /// The differences of neighbouring lengths, ascending.
    DeltaSet,
    /// All factorizations, in descending lexicographic order.
    Factorizations,
    /// The lengths of the factorizations, ascending.
    Lengths,
    /// The omega primality of a member.
    OmegaPrimality,
}

impl OfTableAndInteger for ElementFact {
    ghost use Rattle.sg_rows_factorizations.specs.Elements.{element_row};

    ghost says = { λ fact G x. element_row fact G x };

    fn tell(self, alloc: Global, table: &Table, integer: i64) -> Result<Made, CallFault> {
        // Its contract tells that the generators are minimal and make a numerical semigroup.
        let _generators = table.generators();
        match self {
            ElementFact::CatenaryDegree => catenary_within(alloc, table, integer),
            ElementFact::DeltaSet => deltas_within(alloc, table, integer),
            ElementFact::Factorizations => factorizations_within(alloc, table, integer),
            ElementFact::Lengths => lengths_within(alloc, table, integer),
            ElementFact::OmegaPrimality => omega_within(alloc, table, integer),
        }
    }
}
