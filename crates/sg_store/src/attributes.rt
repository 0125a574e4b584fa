//! The attributes of semigroups, as far as they are kept.

ghost use Rattle.std.specs.Prelude.{◌≡◌, IfOk, OnOk, OnErr};
ghost use Rattle.sg_lawful.specs.Lawful.{IsLawfulList};
ghost use Rattle.sg_store.specs.Attributes.{IsTableOf, AreNumbersOf, IsPresentationOf, nothing_asked, table_answered, numbers_answered, presentation_answered, tame_answered, IsAfterNoTable, IsAfterNoNumbers, IsAfterNoPresentation, IsAfterNoTame, AreCounts};
ghost use Rattle.sg_store.specs.Fit.{IsTameable};
ghost use Rattle.sg_tame.specs.Answers.{IsTameAnswer};

use crate::makers::{MakesPresentations, MakesPseudo, MakesTables, MakesTames};
use crate::questions::{PresentationQ, PseudoQ, TableQ, TameQ};
use sg_apery::Table;
use sg_betti::Presentation;
use sg_memo::{Kept, Memo};
use sg_nat::{Ints, Nats};
use sg_tame::TameAnswer;
use std::alloc::{AllocError, Global};
use std::marker::Model;
use std::rc::Rc;

/// How often each attribute was asked for and made, up to 2^64 - 1.
#[derive(Clone, Copy, Drop)]
pub struct Counts {
    pub tables_asked: u64,
    pub tables_made: u64,
    pub pseudo_asked: u64,
    pub pseudo_made: u64,
    pub presentations_asked: u64,
    pub presentations_made: u64,
    pub tames_asked: u64,
    pub tames_made: u64,
}

/// Tables, pseudo-Frobenius numbers, canonical minimal presentations and tame degrees by the minimal generators of their
/// semigroups. Contracts see what each memo keeps and counts.
#[derive(Drop)]
pub struct Attributes {
    tables: Memo<TableQ, MakesTables>,
    pseudo: Memo<PseudoQ, MakesPseudo>,
    presentations: Memo<PresentationQ, MakesPresentations>,
    tames: Memo<TameQ, MakesTames>,
}

impl Model for Attributes {
    ghost use Rattle.std.specs.Prelude.{⊤};
    ghost use Rattle.sg_store.specs.Attributes.{Attributes};

    ghost Value = { Attributes };

    ghost view = { λ a. record { tables = a.tables; pseudo = a.pseudo; presentations = a.presentations; tames = a.tames } };

    ghost invariant = { λ _. ⊤ };
}

impl Attributes {
    /// Room for so many of each attribute. Nothing was asked for.
    pub fn new(alloc: Global, capacity: usize) -> Result<Attributes, AllocError>
        ensures { IfOk result (λ a. a ≡ nothing_asked capacity) }
    {
        Ok(Attributes {
            tables: Memo::new(alloc, Kept::new(MakesTables), capacity)?,
            pseudo: Memo::new(alloc, Kept::new(MakesPseudo), capacity)?,
            presentations: Memo::new(alloc, Kept::new(MakesPresentations), capacity)?,
            tames: Memo::new(alloc, Kept::new(MakesTames), capacity)?,
        })
    }

    /// The table of the semigroup with these minimal generators.
    pub fn table(&mut self, alloc: Global, gens: &Nats) -> Result<Rc<Table>, AllocError>
        requires { IsLawfulList gens.now }
        ensures table { IfOk result (λ table. IsTableOf gens.now table.value) }
        ensures ok { OnOk result (self.new ≡ table_answered gens.now self.old) }
        ensures err { OnErr result (IsAfterNoTable self.old self.new) }
    {
        self.tables.get(alloc, gens)
    }

    /// The pseudo-Frobenius numbers of the semigroup with these minimal generators, ascending.
    pub fn pseudo_frobenius(&mut self, alloc: Global, gens: &Nats) -> Result<Rc<Ints>, AllocError>
        requires { IsLawfulList gens.now }
        ensures numbers { IfOk result (λ numbers. AreNumbersOf gens.now numbers.value) }
        ensures ok { OnOk result (self.new ≡ numbers_answered gens.now self.old) }
        ensures err { OnErr result (IsAfterNoNumbers self.old self.new) }
    {
        self.pseudo.get(alloc, gens)
    }

    /// The canonical minimal presentation of the semigroup with these minimal generators.
    pub fn presentation(
        &mut self,
        alloc: Global,
        gens: &Nats,
    ) -> Result<Rc<Presentation>, AllocError>
        requires { IsLawfulList gens.now }
        ensures presentation { IfOk result (λ relations. IsPresentationOf gens.now relations.value) }
        ensures ok { OnOk result (self.new ≡ presentation_answered gens.now self.old) }
        ensures err { OnErr result (IsAfterNoPresentation self.old self.new) }
    {
        self.presentations.get(alloc, gens)
    }

    /// The tame degree of the semigroup with these minimal generators, or that it is not told.
    pub fn tame(&mut self, alloc: Global, gens: &Nats) -> Result<Rc<TameAnswer>, AllocError>
        requires { IsTameable gens.now }
        ensures answer { IfOk result (λ answer. IsTameAnswer gens.now answer.value) }
        ensures ok { OnOk result (self.new ≡ tame_answered gens.now self.old) }
        ensures err { OnErr result (IsAfterNoTame self.old self.new) }
    {
        self.tames.get(alloc, gens)
    }

    /// How often each was asked for and made.
    pub fn counts(&self) -> Counts
        ensures { AreCounts self.now result }
    {
        Counts {
            tables_asked: self.tables.asked(),
            tables_made: self.tables.made(),
            pseudo_asked: self.pseudo.asked(),
            pseudo_made: self.pseudo.made(),
            presentations_asked: self.presentations.asked(),
            presentations_made: self.presentations.made(),
            tames_asked: self.tames.asked(),
            tames_made: self.tames.made(),
        }
    }
}
