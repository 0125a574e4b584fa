//! The commands, joined from their families, and the names that no family has.

ghost use Rattle.std.specs.Prelude.{◌≡◌};
ghost use Rattle.sg_calls.specs.Commands.{word_named, family_command, command_named, takes, checked};

use sg_rows::{Fault, Named, find};
use sg_rows_constructors::Maker;
use sg_rows_factorizations::FactorizationCommand;
use sg_rows_ideals::IdealCommand;
use sg_rows_invariants::Fact;
use sg_rows_lists::ListCommand;
use sg_rows_presentations::PresentationCommand;
use sg_rows_symmetry::Shape;
use sg_rows_tame::TameCommand;

/// A command, by the family that it is of.
#[derive(Clone, Copy)]
pub enum Command {
    /// On lists and integers.
    Lists(ListCommand),
    /// Makes a numerical semigroup.
    Makers(Maker),
    /// A fact of a numerical semigroup.
    Facts(Fact),
    /// The shape of a numerical semigroup.
    Shapes(Shape),
    /// On relative ideals.
    Ideals(IdealCommand),
    /// On factorizations of elements.
    Factorizations(FactorizationCommand),
    /// On the minimal presentation of a numerical semigroup, and on all its factorizations.
    Presentations(PresentationCommand),
    /// On the tame degree of a numerical semigroup.
    Tames(TameCommand),
    /// On semigroups or on ideals or elements.
    Shared(Shared),
}

/// A command that semigroups have in common with ideals, or with elements.
#[derive(Clone, Copy)]
pub enum Shared {
    /// The catenary degree, of a semigroup or of an element.
    CatenaryDegree,
    /// The members of both.
    Intersection,
    /// The minimal generators.
    MinimalGenerators,
}

/// What is done with the values that an arrow gives.
#[derive(Clone, Copy)]
pub enum Folding {
    /// The list of all values.
    EachValue,
    /// The list of the entries of which the value is true.
    ThoseTrue,
    /// Whether all values are true.
    AllTrue,
    /// Whether one value is true.
    AnyTrue,
    /// How many values are true.
    CountTrue,
}

/// What a name stands for.
#[derive(Clone, Copy)]
pub enum Word {
    /// The statement that prints.
    Print,
    /// A command whose second argument is an arrow.
    Arrow(Folding),
    /// A command of values.
    Command(Command),
}

/// The names that no family has.
static OWN_NAMES: [Named<Word>; 9] = [
    Named(
        b"CatenaryDegree",
        Word::Command(Command::Shared(Shared::CatenaryDegree)),
    ),
    Named(b"Filtered", Word::Arrow(Folding::ThoseTrue)),
    Named(b"ForAll", Word::Arrow(Folding::AllTrue)),
    Named(b"ForAny", Word::Arrow(Folding::AnyTrue)),
    Named(
        b"Intersection",
        Word::Command(Command::Shared(Shared::Intersection)),
    ),
    Named(b"List", Word::Arrow(Folding::EachValue)),
    Named(
        b"MinimalGenerators",
        Word::Command(Command::Shared(Shared::MinimalGenerators)),
    ),
    Named(b"Number", Word::Arrow(Folding::CountTrue)),
    Named(b"Print", Word::Print),
];

/// The command of this name in the first family that has it.
fn family_command(name: &[u8]) -> Option<Command>
    ensures { result ≡ family_command name.now }
{
    if let Some(command) = sg_rows_lists::named(name) {
        return Some(Command::Lists(command));
    }
    if let Some(maker) = sg_rows_constructors::named(name) {
        return Some(Command::Makers(maker));
    }
    if let Some(fact) = sg_rows_invariants::named(name) {
        return Some(Command::Facts(fact));
    }
    if let Some(shape) = sg_rows_symmetry::named(name) {
        return Some(Command::Shapes(shape));
    }
    if let Some(command) = sg_rows_ideals::named(name) {
        return Some(Command::Ideals(command));
    }
    if let Some(command) = sg_rows_factorizations::named(name) {
        return Some(Command::Factorizations(command));
    }
    if let Some(command) = sg_rows_presentations::named(name) {
        return Some(Command::Presentations(command));
    }
    Some(Command::Tames(sg_rows_tame::named(name)?))
}

/// What this name stands for.
pub fn word_named(name: &[u8]) -> Option<Word>
    ensures { result ≡ word_named name.now }
{
    match find(&OWN_NAMES, name) {
        Some(word) => Some(word),
        None => Some(Word::Command(family_command(name)?)),
    }
}

/// The command of values of this name.
pub fn command_named(name: &[u8]) -> Option<Command>
    ensures { result ≡ command_named name.now }
{
    match word_named(name) {
        Some(Word::Command(command)) => Some(command),
        _ => None,
    }
}

/// Whether the command takes so many arguments.
pub fn takes(command: Command, count: usize) -> bool
    ensures { result ≡ takes command count }
{
    match command {
        Command::Lists(command) => sg_rows_lists::takes(command, count),
        Command::Makers(maker) => sg_rows_constructors::takes(maker, count),
        Command::Facts(fact) => sg_rows_invariants::takes(fact, count),
        Command::Shapes(shape) => sg_rows_symmetry::takes(shape, count),
        Command::Ideals(command) => sg_rows_ideals::takes(command, count),
        Command::Factorizations(command) => sg_rows_factorizations::takes(command, count),
        Command::Presentations(command) => sg_rows_presentations::takes(command, count),
        Command::Tames(command) => sg_rows_tame::takes(command, count),
        Command::Shared(Shared::CatenaryDegree) => count == 1 || count == 2,
        Command::Shared(Shared::Intersection) => count == 2,
        Command::Shared(Shared::MinimalGenerators) => count == 1,
    }
}

/// Why a call is refused before its arguments are looked at: there is no command of this name, or it does not take so
/// many arguments. It takes no memory.
pub fn check_call(command: &[u8], count: usize) -> Option<Fault>
    ensures { result ≡ checked command.now count }
{
    match command_named(command) {
        None => Some(Fault::UnknownName),
        Some(found) if takes(found, count) => None,
        Some(_) => Some(Fault::WrongCount),
    }
}
