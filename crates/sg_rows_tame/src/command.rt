//! The name of the command on the tame degree.

ghost use Rattle.std.specs.Prelude.{◌≡◌};
ghost use Rattle.sg_rows_tame.specs.Commands.{named, takes};

use sg_rows::{Named, find};

/// A command of this crate.
#[derive(Clone, Copy)]
pub enum TameCommand {
    /// Of a semigroup. It asks for the table, and for the tame degree where the semigroup is not too large.
    TameDegree,
}

/// The names of all commands of this crate.
static NAMES: [Named<TameCommand>; 1] = [Named(b"TameDegree", TameCommand::TameDegree)];

/// The command of this name.
pub fn named(name: &[u8]) -> Option<TameCommand>
    ensures { result ≡ named name.now }
{
    find(&NAMES, name)
}

/// Whether the command takes so many arguments: it takes one.
pub fn takes(command: TameCommand, count: usize) -> bool
    ensures { result ≡ takes command count }
{
    match command {
        TameCommand::TameDegree => count == 1,
    }
}
