//! The names of the commands on presentations.

ghost use Rattle.std.specs.Prelude.{◌≡◌};
ghost use Rattle.sg_rows_presentations.specs.Commands.{named, takes};

use crate::fact::PresentationFact;
use sg_rows::{Named, find};

/// A command of this crate.
#[derive(Clone, Copy)]
pub enum PresentationCommand {
    /// Of a semigroup. It asks for the table, and for the presentation where it is not refused.
    OfPresentation(PresentationFact),
    /// The least delta of a semigroup. It asks for nothing.
    LeastDelta,
}

/// The names of all commands of this crate but for `CatenaryDegree`, which is also that of an element.
static NAMES: [Named<PresentationCommand>; 4] = [
    Named(
        b"BettiElements",
        PresentationCommand::OfPresentation(PresentationFact::BettiElements),
    ),
    Named(
        b"MaximumDelta",
        PresentationCommand::OfPresentation(PresentationFact::MaximumDelta),
    ),
    Named(
        b"MinimalPresentation",
        PresentationCommand::OfPresentation(PresentationFact::MinimalPresentation),
    ),
    Named(b"MinimumDelta", PresentationCommand::LeastDelta),
];

/// The command of this name.
pub fn named(name: &[u8]) -> Option<PresentationCommand>
    ensures { result ≡ named name.now }
{
    find(&NAMES, name)
}

/// Whether the command takes so many arguments: each takes one.
pub fn takes(command: PresentationCommand, count: usize) -> bool
    ensures { result ≡ takes command count }
{
    match command {
        PresentationCommand::OfPresentation(_) | PresentationCommand::LeastDelta => count == 1,
    }
}
