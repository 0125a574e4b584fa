//! The commands on relative ideals, by what they are told of.

ghost use Rattle.std.specs.Prelude.{◌≡◌};
ghost use Rattle.sg_rows_ideals.specs.Ideals.{named, takes};

use crate::facts::IdealFact;
use crate::pairs::Pair;
use crate::settling::{held, settled};
use sg_apery::Table;
use sg_ideal::{canonical, maximal};
use sg_nat::Ints;
use sg_rows::{CallFault, Made, Named, OfTable, OfTableAndNumbers, find};
use std::alloc::Global;

/// A command of this crate.
#[derive(Clone, Copy)]
pub enum IdealCommand {
    /// Of an ideal. It asks for nothing.
    OfIdeal(IdealFact),
    /// Of a semigroup. It asks for its table.
    OfTable(TableIdeal),
    /// Of a semigroup. It asks for its table and its pseudo-Frobenius numbers.
    OfBoth(BothIdeal),
    /// The ideal that a list of integers generates over a semigroup. It asks for the table.
    Generated,
    /// Of two ideals. It asks for the tables of their semigroups.
    OfTwoIdeals(Pair),
}

/// The names of the commands of this crate, but for those that semigroups have too.
static NAMES: [Named<IdealCommand>; 4] = [
    Named(
        b"AmbientNumericalSemigroupOfIdeal",
        IdealCommand::OfIdeal(IdealFact::Ambient),
    ),
    Named(
        b"CanonicalIdeal",
        IdealCommand::OfBoth(BothIdeal::Canonical),
    ),
    Named(b"IdealOfNumericalSemigroup", IdealCommand::Generated),
    Named(b"MaximalIdeal", IdealCommand::OfTable(TableIdeal::Maximal)),
];

/// The command of this name.
pub fn named(name: &[u8]) -> Option<IdealCommand>
    ensures { result ≡ named name.now }
{
    find(&NAMES, name)
}

/// Whether the command takes so many arguments.
pub fn takes(command: IdealCommand, count: usize) -> bool
    ensures { result ≡ takes command count }
{
    match command {
        IdealCommand::Generated | IdealCommand::OfTwoIdeals(_) => count == 2,
        _ => count == 1,
    }
}

/// An ideal that is read off the table of a semigroup.
#[derive(Clone, Copy)]
pub enum TableIdeal {
    /// The members but 0.
    Maximal,
}

impl OfTable for TableIdeal {
    ghost use Rattle.sg_rows_ideals.specs.Ideals.{table_row};

    ghost says = { λ ideal G. table_row ideal G };

    fn tell(self, alloc: Global, table: &Table) -> Result<Made, CallFault> {
        match self {
            TableIdeal::Maximal => Ok(held(alloc, table, &maximal(alloc, table)?)?),
        }
    }
}

/// An ideal that takes both the table and the pseudo-Frobenius numbers.
#[derive(Clone, Copy)]
pub enum BothIdeal {
    /// The integers that, taken from the Frobenius number, give no member.
    Canonical,
}

impl OfTableAndNumbers for BothIdeal {
    ghost use Rattle.sg_rows_ideals.specs.Ideals.{both_row};

    ghost says = { λ ideal G. both_row ideal G };

    fn tell(self, alloc: Global, table: &Table, numbers: &Ints) -> Result<Made, CallFault> {
        match self {
            BothIdeal::Canonical => settled(alloc, table, canonical(alloc, table, numbers)),
        }
    }
}
