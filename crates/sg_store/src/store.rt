//! The store.

ghost use Rattle.std.specs.Prelude.{◌≡◌, [], slice_get, Some, IsSome, IfOk, OnOk, OnErr};
ghost use Rattle.sg_store.specs.Attributes.{AreNumbersOf, IsPresentationOf, nothing_asked, table_answered, numbers_answered, presentation_answered, tame_answered, IsAfterNoTable, IsAfterNoNumbers, IsAfterNoPresentation, IsAfterNoTame};
ghost use Rattle.sg_store.specs.Held.{list_at};
ghost use Rattle.sg_classes.specs.Fit.{IsNarrow};
ghost use Rattle.sg_tame.specs.Answers.{IsTameAnswer, IsWithinLimit};

use crate::attributes::Attributes;
use crate::ids::Ids;
use sg_apery::Table;
use sg_betti::Presentation;
use sg_nat::Ints;
use sg_tame::TameAnswer;
use sg_value::SemId;
use std::alloc::{AllocError, Global};
use std::rc::Rc;

/// The semigroups and ideals that are known, and the attributes of the semigroups as far as they are kept.
#[derive(Drop)]
pub struct Store {
    /// What ids stand for.
    pub ids: Ids,
    /// What is kept of semigroups that are known.
    pub attributes: Attributes,
}

impl Store {
    /// The store that knows nothing, with room for so many of each attribute.
    pub fn new(alloc: Global, capacity: usize) -> Result<Store, AllocError>
        ensures semigroups { IfOk result (λ store. store.ids.semigroups ≡ []) }
        ensures ideals { IfOk result (λ store. store.ids.ideals ≡ []) }
        ensures attributes { IfOk result (λ store. store.attributes ≡ nothing_asked capacity) }
    {
        Ok(Store {
            ids: Ids::new(alloc),
            attributes: Attributes::new(alloc, capacity)?,
        })
    }

    /// The table of a known semigroup.
    pub fn table(&mut self, alloc: Global, id: SemId) -> Result<Rc<Table>, AllocError>
        requires { IsSome (slice_get self.old.ids.semigroups id) }
        ensures table { IfOk result (λ table. slice_get self.old.ids.semigroups id ≡ Some table.value) }
        ensures ids { self.new.ids ≡ self.old.ids }
        ensures ok { OnOk result (self.new.attributes ≡ table_answered (list_at self.old.ids.semigroups id) self.old.attributes) }
        ensures err { OnErr result (IsAfterNoTable self.old.attributes self.new.attributes) }
    {
        self.attributes.table(alloc, self.ids.generators(id))
    }

    /// The pseudo-Frobenius numbers of a known semigroup, ascending.
    pub fn pseudo_frobenius(&mut self, alloc: Global, id: SemId) -> Result<Rc<Ints>, AllocError>
        requires { IsSome (slice_get self.old.ids.semigroups id) }
        ensures numbers { IfOk result (λ numbers. AreNumbersOf (list_at self.old.ids.semigroups id) numbers.value) }
        ensures ids { self.new.ids ≡ self.old.ids }
        ensures ok { OnOk result (self.new.attributes ≡ numbers_answered (list_at self.old.ids.semigroups id) self.old.attributes) }
        ensures err { OnErr result (IsAfterNoNumbers self.old.attributes self.new.attributes) }
    {
        self.attributes
            .pseudo_frobenius(alloc, self.ids.generators(id))
    }

    /// The canonical minimal presentation of a known semigroup. It is made of any; a row refuses those that are too large
    /// before it asks.
    pub fn presentation(&mut self, alloc: Global, id: SemId) -> Result<Rc<Presentation>, AllocError>
        requires { IsSome (slice_get self.old.ids.semigroups id) }
        ensures presentation { IfOk result (λ relations. IsPresentationOf (list_at self.old.ids.semigroups id) relations.value) }
        ensures ids { self.new.ids ≡ self.old.ids }
        ensures ok { OnOk result (self.new.attributes ≡ presentation_answered (list_at self.old.ids.semigroups id) self.old.attributes) }
        ensures err { OnErr result (IsAfterNoPresentation self.old.attributes self.new.attributes) }
    {
        self.attributes.presentation(alloc, self.ids.generators(id))
    }

    /// The tame degree of a known semigroup that is narrow and within the limit of `sg_tame`, or that it is not told.
    pub fn tame(&mut self, alloc: Global, id: SemId) -> Result<Rc<TameAnswer>, AllocError>
        requires known { IsSome (slice_get self.old.ids.semigroups id) }
        requires narrow { IsNarrow (list_at self.old.ids.semigroups id) }
        requires within { IsWithinLimit (list_at self.old.ids.semigroups id) }
        ensures answer { IfOk result (λ answer. IsTameAnswer (list_at self.old.ids.semigroups id) answer.value) }
        ensures ids { self.new.ids ≡ self.old.ids }
        ensures ok { OnOk result (self.new.attributes ≡ tame_answered (list_at self.old.ids.semigroups id) self.old.attributes) }
        ensures err { OnErr result (IsAfterNoTame self.old.attributes self.new.attributes) }
    {
        self.attributes.tame(alloc, self.ids.generators(id))
    }
}
