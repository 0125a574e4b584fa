//! The commands that tell facts of a numerical semigroup, by what they are told of.

ghost use Rattle.std.specs.Prelude.{◌≡◌};
ghost use Rattle.sg_rows_invariants.specs.Facts.{named, takes};

use crate::gap_lists::{fundamental_gaps_within, gaps_within, small_elements_within};
use sg_apery::Table;
use sg_invar::{conductor, frobenius, genus, special_gaps};
use sg_nat::{Ints, Nats};
use sg_rows::{CallFault, Made, Named, OfGenerators, OfNumbers, OfTable, OfTableAndNumbers, find};
use std::alloc::Global;

/// A command of this crate.
#[derive(Clone, Copy)]
pub enum Fact {
    /// Of a semigroup. It asks for nothing.
    OfGenerators(GeneratorsFact),
    /// Of a semigroup. It asks for its table.
    OfTable(TableFact),
    /// Of a semigroup. It asks for its pseudo-Frobenius numbers.
    OfNumbers(NumbersFact),
    /// Of a semigroup. It asks for its table and its pseudo-Frobenius numbers.
    OfBoth(BothFact),
    /// The Apery list of a semigroup, or of a semigroup and a member. It asks for the table.
    AperyList,
}

/// The names of all commands of this crate.
static NAMES: [Named<Fact>; 12] = [
    Named(b"AperyList", Fact::AperyList),
    Named(b"Conductor", Fact::OfTable(TableFact::Conductor)),
    Named(
        b"EmbeddingDimension",
        Fact::OfGenerators(GeneratorsFact::EmbeddingDimension),
    ),
    Named(
        b"FrobeniusNumber",
        Fact::OfTable(TableFact::FrobeniusNumber),
    ),
    Named(
        b"FundamentalGaps",
        Fact::OfTable(TableFact::FundamentalGaps),
    ),
    Named(b"Gaps", Fact::OfTable(TableFact::Gaps)),
    Named(b"Genus", Fact::OfTable(TableFact::Genus)),
    Named(
        b"Multiplicity",
        Fact::OfGenerators(GeneratorsFact::Multiplicity),
    ),
    Named(
        b"PseudoFrobenius",
        Fact::OfNumbers(NumbersFact::PseudoFrobenius),
    ),
    Named(b"SmallElements", Fact::OfTable(TableFact::SmallElements)),
    Named(b"SpecialGaps", Fact::OfBoth(BothFact::SpecialGaps)),
    Named(b"Type", Fact::OfNumbers(NumbersFact::Type)),
];

/// The command of this name.
pub fn named(name: &[u8]) -> Option<Fact>
    ensures { result ≡ named name.now }
{
    find(&NAMES, name)
}

/// Whether the command takes so many arguments.
pub fn takes(fact: Fact, count: usize) -> bool
    ensures { result ≡ takes fact count }
{
    match fact {
        Fact::AperyList => count == 1 || count == 2,
        _ => count == 1,
    }
}

/// What is read off the minimal generators.
#[derive(Clone, Copy)]
pub enum GeneratorsFact {
    /// The number of minimal generators.
    EmbeddingDimension,
    /// The minimal generators, ascending.
    MinimalGenerators,
    /// The least member above 0.
    Multiplicity,
}

impl OfGenerators for GeneratorsFact {
    ghost use Rattle.sg_rows_invariants.specs.Facts.{generators_row};

    ghost says = { λ fact G. generators_row fact G };

    fn tell(self, _alloc: Global, generators: &Nats) -> Result<Made, CallFault> {
        match self {
            GeneratorsFact::EmbeddingDimension => Ok(Made::Natural(
                generators.as_slice().len() as u64,
            )),
            GeneratorsFact::MinimalGenerators => Ok(Made::Naturals(generators.try_clone()?)),
            GeneratorsFact::Multiplicity => Ok(Made::Natural(generators.as_slice()[0])),
        }
    }
}

/// What is read off the table.
#[derive(Clone, Copy)]
pub enum TableFact {
    /// The Apery list modulo the multiplicity: entry `i` is the least member congruent to `i`.
    AperyList,
    /// The least number from which on all are members.
    Conductor,
    /// The greatest integer that is no member.
    FrobeniusNumber,
    /// The gaps each of whose proper multiples is a member, ascending.
    FundamentalGaps,
    /// The naturals that are no members, ascending.
    Gaps,
    /// The number of gaps.
    Genus,
    /// The members up to the conductor, ascending.
    SmallElements,
}

impl OfTable for TableFact {
    ghost use Rattle.sg_rows_invariants.specs.Facts.{table_row};

    ghost says = { λ fact G. table_row fact G };

    fn tell(self, alloc: Global, table: &Table) -> Result<Made, CallFault> {
        match self {
            TableFact::AperyList => {
                // Its contract tells that the list is minimal, so that the first generator is the multiplicity.
                let _minimal = table.generators();
                Ok(Made::Naturals(Nats::from_slice(alloc, table.apery())?))
            }
            TableFact::Conductor => Ok(Made::Natural(conductor(table))),
            TableFact::FrobeniusNumber => Ok(Made::Integer(frobenius(table))),
            TableFact::FundamentalGaps => fundamental_gaps_within(alloc, table),
            TableFact::Gaps => gaps_within(alloc, table),
            TableFact::Genus => Ok(Made::Natural(genus(table))),
            TableFact::SmallElements => small_elements_within(alloc, table),
        }
    }
}

/// What is read off the pseudo-Frobenius numbers.
#[derive(Clone, Copy)]
pub enum NumbersFact {
    /// The pseudo-Frobenius numbers, ascending.
    PseudoFrobenius,
    /// How many there are.
    Type,
}

impl OfNumbers for NumbersFact {
    ghost use Rattle.sg_rows_invariants.specs.Facts.{numbers_row};

    ghost says = { λ fact G. numbers_row fact G };

    fn tell(self, _alloc: Global, numbers: &Ints) -> Result<Made, CallFault> {
        match self {
            NumbersFact::PseudoFrobenius => Ok(Made::Integers(numbers.try_clone()?)),
            NumbersFact::Type => Ok(Made::Natural(numbers.as_slice().len() as u64)),
        }
    }
}

/// What takes both the table and the pseudo-Frobenius numbers.
#[derive(Clone, Copy)]
pub enum BothFact {
    /// The pseudo-Frobenius numbers whose double is a member, ascending.
    SpecialGaps,
}

impl OfTableAndNumbers for BothFact {
    ghost use Rattle.sg_rows_invariants.specs.Facts.{both_row};

    ghost says = { λ fact G. both_row fact G };

    fn tell(self, alloc: Global, table: &Table, numbers: &Ints) -> Result<Made, CallFault> {
        match self {
            BothFact::SpecialGaps => Ok(Made::Integers(special_gaps(alloc, table, numbers)?)),
        }
    }
}
