//! The commands on the shape of a numerical semigroup, by what they are told of.

ghost use Rattle.std.specs.Prelude.{◌≡◌};
ghost use Rattle.sg_rows_symmetry.specs.Shapes.{named, takes};

use crate::closures::closed;
use crate::tests_within::{is_arf_within, is_saturated_within};
use sg_apery::Table;
use sg_closure::is_med_by_generators;
use sg_invar::special_gaps;
use sg_irred::{decompose, is_irreducible, is_pseudo_symmetric, is_symmetric};
use sg_nat::{Ints, Nats};
use sg_rows::{
    CallFault, Fault, Made, Named, OfGenerators, OfTable, OfTableAndNumbers, find, is_wide,
};
use std::alloc::Global;

/// A command of this crate.
#[derive(Clone, Copy)]
pub enum Shape {
    /// Of a semigroup. It asks for nothing.
    TestOfGenerators(GeneratorsTest),
    /// Of a semigroup. It asks for its table.
    TestOfTable(TableTest),
    /// Of a semigroup. It asks for its table.
    Closure(Closure),
    /// Of a semigroup. It asks for its table and its pseudo-Frobenius numbers.
    Decomposition(Decomposition),
}

/// The names of all commands of this crate.
static NAMES: [Named<Shape>; 10] = [
    Named(b"ArfClosure", Shape::Closure(Closure::Arf)),
    Named(
        b"DecomposeIntoIrreducibles",
        Shape::Decomposition(Decomposition::IntoIrreducibles),
    ),
    Named(b"IsArf", Shape::TestOfTable(TableTest::IsArf)),
    Named(
        b"IsIrreducible",
        Shape::TestOfTable(TableTest::IsIrreducible),
    ),
    Named(b"IsMED", Shape::TestOfGenerators(GeneratorsTest::IsMED)),
    Named(
        b"IsPseudoSymmetric",
        Shape::TestOfTable(TableTest::IsPseudoSymmetric),
    ),
    Named(b"IsSaturated", Shape::TestOfTable(TableTest::IsSaturated)),
    Named(b"IsSymmetric", Shape::TestOfTable(TableTest::IsSymmetric)),
    Named(b"MEDClosure", Shape::Closure(Closure::Med)),
    Named(b"SaturatedClosure", Shape::Closure(Closure::Saturated)),
];

/// The command of this name.
pub fn named(name: &[u8]) -> Option<Shape>
    ensures { result ≡ named name.now }
{
    find(&NAMES, name)
}

/// Whether the command takes so many arguments.
pub fn takes(_shape: Shape, count: usize) -> bool
    ensures { result ≡ takes _shape count }
{
    count == 1
}

/// Whether a semigroup is of a kind that is read off its minimal generators.
#[derive(Clone, Copy)]
pub enum GeneratorsTest {
    /// Whether it is of maximal embedding dimension.
    IsMED,
}

impl OfGenerators for GeneratorsTest {
    ghost use Rattle.sg_rows_symmetry.specs.Shapes.{generators_row};

    ghost says = { λ test G. generators_row test G };

    fn tell(self, _alloc: Global, generators: &Nats) -> Result<Made, CallFault> {
        match self {
            GeneratorsTest::IsMED => Ok(Made::Truth(is_med_by_generators(generators))),
        }
    }
}

/// Whether a semigroup is of a kind that is read off its table.
#[derive(Clone, Copy)]
pub enum TableTest {
    /// Whether `x + y - z` is a member for all members `x >= y >= z`.
    IsArf,
    /// Whether it is no meet of two numerical semigroups properly above it.
    IsIrreducible,
    /// Whether its Frobenius number `F` is even and of every integer `x` but the half of `F` exactly one of `x` and
    /// `F - x` is a member.
    IsPseudoSymmetric,
    /// Whether a member with any integer combination of members up to it that is not negative is a member.
    IsSaturated,
    /// Whether of every integer `x` and `F - x`, for the Frobenius number `F`, exactly one is a member.
    IsSymmetric,
}

impl OfTable for TableTest {
    ghost use Rattle.sg_rows_symmetry.specs.Shapes.{table_row};

    ghost says = { λ test G. table_row test G };

    fn tell(self, alloc: Global, table: &Table) -> Result<Made, CallFault> {
        match self {
            TableTest::IsArf => is_arf_within(alloc, table),
            TableTest::IsIrreducible => Ok(Made::Truth(is_irreducible(table))),
            TableTest::IsPseudoSymmetric => Ok(Made::Truth(is_pseudo_symmetric(table))),
            TableTest::IsSaturated => is_saturated_within(alloc, table),
            TableTest::IsSymmetric => Ok(Made::Truth(is_symmetric(table))),
        }
    }
}

/// The least numerical semigroup of a kind that holds all of a semigroup.
#[derive(Clone, Copy)]
pub enum Closure {
    /// The least Arf semigroup.
    Arf,
    /// The least one of maximal embedding dimension and the same multiplicity.
    Med,
    /// The least saturated semigroup.
    Saturated,
}

impl OfTable for Closure {
    ghost use Rattle.sg_rows_symmetry.specs.Shapes.{closure_row};

    ghost says = { λ closure G. closure_row closure G };

    fn tell(self, alloc: Global, table: &Table) -> Result<Made, CallFault> {
        if is_wide(table) {
            return Err(CallFault::Script(Fault::TooLarge));
        }
        let closure = closed(alloc, self, table)?;
        Ok(Made::Semigroup(closure.generators().try_clone()?))
    }
}

/// Numerical semigroups that meet in a semigroup.
#[derive(Clone, Copy)]
pub enum Decomposition {
    /// Irreducible ones, none of which can be left out.
    IntoIrreducibles,
}

impl OfTableAndNumbers for Decomposition {
    ghost use Rattle.sg_rows_symmetry.specs.Shapes.{decomposition_row};

    ghost says = { λ parts G. decomposition_row parts G };

    fn tell(self, alloc: Global, table: &Table, numbers: &Ints) -> Result<Made, CallFault> {
        if is_wide(table) {
            return Err(CallFault::Script(Fault::TooLarge));
        }
        let special = special_gaps(alloc, table, numbers)?;
        let _minimal = table.generators();
        match self {
            Decomposition::IntoIrreducibles => Ok(Made::Semigroups(decompose(
                alloc, table, &special,
            )?)),
        }
    }
}
