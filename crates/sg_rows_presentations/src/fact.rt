//! What the canonical minimal presentation of a semigroup tells.

ghost use Rattle.std.specs.Prelude.{◌<◌};
ghost use Rattle.sg_defs.specs.Membership.{IsFactorization};
ghost use Rattle.sg_nonunique.specs.Presentations.{IsCanonical};
ghost use Rattle.sg_rows.specs.Made.{Tells};
ghost use Rattle.sg_rows.specs.Order.{Passes};
ghost use Rattle.sg_rows_presentations.specs.Rows.{Checked, presentation_row};

use crate::deltas::delta_or_fail;
use crate::elements::elements_of;
use crate::sides::sides_of;
use sg_apery::Table;
use sg_betti::{Presentation, is_presentable};
use sg_degrees::{catenary, max_delta};
use sg_rows::{CallFault, Fault, Made};
use std::alloc::Global;

/// What is told of a semigroup and its presentation. A semigroup that is not narrow is TooLarge, and so is one whose span
/// is past the limit of presentations.
#[derive(Clone, Copy)]
pub enum PresentationFact {
    /// The Betti elements, ascending: the elements with two factorizations that are not in one class.
    BettiElements,
    /// The catenary degree: the least number N such that any two factorizations of every element are joined by steps of
    /// distance at most N.
    CatenaryDegree,
    /// The greatest delta of all elements, and fail for the naturals, where no element has one.
    MaximumDelta,
    /// The canonical relations, each as the list of its two sides, the greater first.
    MinimalPresentation,
}

impl PresentationFact {
    /// The refusal of the row, which is told before the presentation is asked for. It takes no memory.
    pub fn check(self, table: &Table) -> Result<(), Fault>
        ensures { Checked result (presentation_row self table.now) }
    {
        if is_presentable(table) {
            Ok(())
        } else {
            Err(Fault::TooLarge)
        }
    }

    /// The value of the row, where it does not refuse.
    pub fn tell(
        self,
        alloc: Global,
        table: &Table,
        presentation: &Presentation,
    ) -> Result<Made, CallFault>
        requires passes { Passes (presentation_row self table.now) }
        requires canonical { IsCanonical (◌<◌) (IsFactorization table.now) presentation.now }
        ensures { Tells result (presentation_row self table.now) }
    {
        // Its contract tells that the generators are minimal and make a numerical semigroup.
        let _generators = table.generators();
        match self {
            PresentationFact::BettiElements => {
                Ok(Made::Naturals(elements_of(alloc, presentation)?))
            }
            PresentationFact::CatenaryDegree => {
                Ok(Made::Natural(catenary(alloc, table, presentation)?))
            }
            PresentationFact::MaximumDelta => {
                Ok(delta_or_fail(max_delta(alloc, table, presentation)?))
            }
            PresentationFact::MinimalPresentation => {
                Ok(Made::VectorLists(sides_of(alloc, presentation)?))
            }
        }
    }
}
