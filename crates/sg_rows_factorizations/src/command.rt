//! The commands on factorizations, by what they are told of.

ghost use Rattle.std.specs.Prelude.{◌≡◌};
ghost use Rattle.sg_rows_factorizations.specs.Commands.{named, takes};

use crate::all_lengths::AllLengths;
use crate::element::ElementFact;
use sg_rows::{Named, find};

/// A command of this crate.
#[derive(Clone, Copy)]
pub enum FactorizationCommand {
    /// Of a semigroup. It asks for nothing.
    OfGenerators(AllLengths),
    /// Of a semigroup and an integer, in either order. It asks for the table.
    OfElement(ElementFact),
    /// The omega primality of a semigroup, or of a member of one. It asks for the table.
    OmegaPrimality,
}

/// The names of all commands of this crate but for `CatenaryDegree`, which is also that of a semigroup.
static NAMES: [Named<FactorizationCommand>; 5] = [
    Named(
        b"DeltaSet",
        FactorizationCommand::OfElement(ElementFact::DeltaSet),
    ),
    Named(
        b"Elasticity",
        FactorizationCommand::OfGenerators(AllLengths::Elasticity),
    ),
    Named(
        b"Factorizations",
        FactorizationCommand::OfElement(ElementFact::Factorizations),
    ),
    Named(
        b"LengthsOfFactorizations",
        FactorizationCommand::OfElement(ElementFact::Lengths),
    ),
    Named(b"OmegaPrimality", FactorizationCommand::OmegaPrimality),
];

/// The command of this name.
pub fn named(name: &[u8]) -> Option<FactorizationCommand>
    ensures { result ≡ named name.now }
{
    find(&NAMES, name)
}

/// Whether the command takes so many arguments.
pub fn takes(command: FactorizationCommand, count: usize) -> bool
    ensures { result ≡ takes command count }
{
    match command {
        FactorizationCommand::OfGenerators(_) => count == 1,
        FactorizationCommand::OfElement(_) => count == 2,
        FactorizationCommand::OmegaPrimality => count == 1 || count == 2,
    }
}
