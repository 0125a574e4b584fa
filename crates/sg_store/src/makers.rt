//! What makes the attributes of a semigroup from its minimal generators.

ghost use Rattle.std.specs.Prelude.{IfOk};
ghost use Rattle.sg_lawful.specs.Lawful.{IsLawfulList};
ghost use Rattle.sg_store.specs.Attributes.{IsTableOf, AreNumbersOf, IsPresentationOf};
ghost use Rattle.sg_store.specs.Fit.{IsTameable};
ghost use Rattle.sg_tame.specs.Answers.{IsTameAnswer};

use sg_apery::Table;
use sg_betti::{Presentation, presentation};
use sg_invar::pseudo_frobenius;
use sg_memo::Makes;
use sg_nat::{Ints, Nats};
use sg_tame::{TameAnswer, tame};
use std::alloc::{AllocError, Global};

/// The table.
fn table_of(alloc: Global, gens: &Nats) -> Result<Table, AllocError>
    requires { IsLawfulList gens.now }
    ensures { IfOk result (λ table. IsTableOf gens.now table) }
{
    Table::of_minimal(alloc, gens)
}

/// The pseudo-Frobenius numbers, ascending. They are made from a table of their own, which is no asking.
fn pseudo_frobenius_of(alloc: Global, gens: &Nats) -> Result<Ints, AllocError>
    requires { IsLawfulList gens.now }
    ensures { IfOk result (λ numbers. AreNumbersOf gens.now numbers) }
{
    let table = table_of(alloc, gens)?;
    pseudo_frobenius(alloc, &table)
}

/// The canonical minimal presentation. It is made from a table of its own, which is no asking.
fn presentation_of(alloc: Global, gens: &Nats) -> Result<Presentation, AllocError>
    requires { IsLawfulList gens.now }
    ensures { IfOk result (λ relations. IsPresentationOf gens.now relations) }
{
    let table = table_of(alloc, gens)?;
    presentation(alloc, &table)
}

/// The tame degree. It is made from a table of its own, which is no asking.
fn tame_of(alloc: Global, gens: &Nats) -> Result<TameAnswer, AllocError>
    requires { IsTameable gens.now }
    ensures { IfOk result (λ answer. IsTameAnswer gens.now answer) }
{
    let table = table_of(alloc, gens)?;
    tame(alloc, &table)
}

/// Makes tables.
#[derive(Drop)]
pub struct MakesTables;

impl Makes<Table> for MakesTables {
    ghost use Rattle.sg_lawful.specs.Lawful.{IsLawfulList};
    ghost use Rattle.sg_store.specs.Attributes.{IsTableOf};

    ghost takes = { λ _ gens. IsLawfulList gens };

    ghost gives = { λ _ gens table. IsTableOf gens table };

    fn make(&self, alloc: Global, gens: &Nats) -> Result<Table, AllocError> {
        table_of(alloc, gens)
    }
}

/// Makes pseudo-Frobenius numbers.
#[derive(Drop)]
pub struct MakesPseudo;

impl Makes<Ints> for MakesPseudo {
    ghost use Rattle.sg_lawful.specs.Lawful.{IsLawfulList};
    ghost use Rattle.sg_store.specs.Attributes.{AreNumbersOf};

    ghost takes = { λ _ gens. IsLawfulList gens };

    ghost gives = { λ _ gens numbers. AreNumbersOf gens numbers };

    fn make(&self, alloc: Global, gens: &Nats) -> Result<Ints, AllocError> {
        pseudo_frobenius_of(alloc, gens)
    }
}

/// Makes canonical minimal presentations.
#[derive(Drop)]
pub struct MakesPresentations;

impl Makes<Presentation> for MakesPresentations {
    ghost use Rattle.sg_lawful.specs.Lawful.{IsLawfulList};
    ghost use Rattle.sg_store.specs.Attributes.{IsPresentationOf};

    ghost takes = { λ _ gens. IsLawfulList gens };

    ghost gives = { λ _ gens relations. IsPresentationOf gens relations };

    fn make(&self, alloc: Global, gens: &Nats) -> Result<Presentation, AllocError> {
        presentation_of(alloc, gens)
    }
}

/// Makes tame degrees.
#[derive(Drop)]
pub struct MakesTames;

impl Makes<TameAnswer> for MakesTames {
    ghost use Rattle.sg_tame.specs.Answers.{IsTameAnswer};
    ghost use Rattle.sg_store.specs.Fit.{IsTameable};

    ghost takes = { λ _ gens. IsTameable gens };

    ghost gives = { λ _ gens answer. IsTameAnswer gens answer };

    fn make(&self, alloc: Global, gens: &Nats) -> Result<TameAnswer, AllocError> {
        tame_of(alloc, gens)
    }
}
