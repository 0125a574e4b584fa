//! The commands that make a numerical semigroup, by what they are told of.

ghost use Rattle.std.specs.Prelude.{◌≡◌};
ghost use Rattle.sg_rows_constructors.specs.Makers.{named, takes};

use crate::from_integers::{
    by_apery_list, by_fundamental_gaps, by_gaps, by_small_elements, generated,
};
use sg_rows::{CallFault, Made, Named, OfIntegers, find};
use std::alloc::Global;

/// A command of this crate.
#[derive(Clone, Copy)]
pub enum Maker {
    /// Of one list of integers.
    OfList(IntegersMaker),
    /// Of integers, as one list or as the arguments.
    OfListOrIntegers(IntegersMaker),
    /// The modular semigroup of two integers.
    Modular,
    /// The proportionally modular semigroup of three integers.
    ProportionallyModular,
    /// The intersection of two semigroups. It asks for their tables.
    Intersection,
    /// The quotient of a semigroup and then an integer. It asks for the table.
    Quotient,
}

/// The names of the commands of this crate, but for that of intersections, which ideals have too.
static NAMES: [Named<Maker>; 8] = [
    Named(b"ModularNumericalSemigroup", Maker::Modular),
    Named(
        b"NumericalSemigroup",
        Maker::OfListOrIntegers(IntegersMaker::ByGenerators),
    ),
    Named(
        b"NumericalSemigroupByAperyList",
        Maker::OfList(IntegersMaker::ByAperyList),
    ),
    Named(
        b"NumericalSemigroupByFundamentalGaps",
        Maker::OfList(IntegersMaker::ByFundamentalGaps),
    ),
    Named(
        b"NumericalSemigroupByGaps",
        Maker::OfList(IntegersMaker::ByGaps),
    ),
    Named(
        b"NumericalSemigroupBySmallElements",
        Maker::OfList(IntegersMaker::BySmallElements),
    ),
    Named(
        b"ProportionallyModularNumericalSemigroup",
        Maker::ProportionallyModular,
    ),
    Named(b"QuotientOfNumericalSemigroup", Maker::Quotient),
];

/// The command of this name.
pub fn named(name: &[u8]) -> Option<Maker>
    ensures { result ≡ named name.now }
{
    find(&NAMES, name)
}

/// Whether the command takes so many arguments.
pub fn takes(maker: Maker, count: usize) -> bool
    ensures { result ≡ takes maker count }
{
    match maker {
        Maker::OfList(_) => count == 1,
        Maker::OfListOrIntegers(_) => count >= 1,
        Maker::Modular | Maker::Intersection | Maker::Quotient => count == 2,
        Maker::ProportionallyModular => count == 3,
    }
}

/// A numerical semigroup from integers, by what they are of it.
#[derive(Clone, Copy)]
pub enum IntegersMaker {
    /// Its Apery list modulo their number: entry `i` is the least member congruent to `i`.
    ByAperyList,
    /// Its fundamental gaps: the members are the naturals that divide none.
    ByFundamentalGaps,
    /// Its gaps: the members are the other naturals.
    ByGaps,
    /// Generators.
    ByGenerators,
    /// Its small elements: the members are these and all naturals above the greatest.
    BySmallElements,
}

impl OfIntegers for IntegersMaker {
    ghost use Rattle.sg_rows_constructors.specs.Makers.{integers_row};

    ghost says = { λ maker zs. integers_row maker zs };

    fn tell(self, alloc: Global, integers: &[i64]) -> Result<Made, CallFault> {
        match self {
            IntegersMaker::ByAperyList => by_apery_list(alloc, integers),
            IntegersMaker::ByFundamentalGaps => by_fundamental_gaps(alloc, integers),
            IntegersMaker::ByGaps => by_gaps(alloc, integers),
            IntegersMaker::ByGenerators => generated(alloc, integers),
            IntegersMaker::BySmallElements => by_small_elements(alloc, integers),
        }
    }
}
