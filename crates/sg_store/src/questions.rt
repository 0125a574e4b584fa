//! The attributes of a semigroup that are kept, as questions about its minimal generators.

use sg_apery::Table;
use sg_betti::Presentation;
use sg_memo::Question;
use sg_nat::Ints;
use sg_tame::TameAnswer;

/// The table.
#[derive(Drop)]
pub struct TableQ;

impl Question for TableQ {
    type Answer = Table;

    ghost use Rattle.sg_lawful.specs.Lawful.{IsLawfulList};
    ghost use Rattle.sg_store.specs.Attributes.{IsTableOf};
    ghost use Rattle.sg_store.specs.OneAttribute.{one_table};

    ghost askable = { IsLawfulList };

    ghost is_answer = { IsTableOf };

    ghost one_answer = { one_table };
}

/// The pseudo-Frobenius numbers, ascending.
#[derive(Drop)]
pub struct PseudoQ;

impl Question for PseudoQ {
    type Answer = Ints;

    ghost use Rattle.sg_lawful.specs.Lawful.{IsLawfulList};
    ghost use Rattle.sg_store.specs.Attributes.{AreNumbersOf};
    ghost use Rattle.sg_store.specs.OneAttribute.{one_list_of_numbers};

    ghost askable = { IsLawfulList };

    ghost is_answer = { AreNumbersOf };

    ghost one_answer = { one_list_of_numbers };
}

/// The canonical minimal presentation.
#[derive(Drop)]
pub struct PresentationQ;

impl Question for PresentationQ {
    type Answer = Presentation;

    ghost use Rattle.sg_lawful.specs.Lawful.{IsLawfulList};
    ghost use Rattle.sg_store.specs.Attributes.{IsPresentationOf};
    ghost use Rattle.sg_store.specs.OneAttribute.{one_presentation};

    ghost askable = { IsLawfulList };

    ghost is_answer = { IsPresentationOf };

    ghost one_answer = { one_presentation };
}

/// The tame degree, or that it is not told. It is asked of semigroups within the limits of `sg_tame`.
#[derive(Drop)]
pub struct TameQ;

impl Question for TameQ {
    type Answer = TameAnswer;

    ghost use Rattle.sg_tame.specs.Answers.{IsTameAnswer};
    ghost use Rattle.sg_store.specs.Fit.{IsTameable};
    ghost use Rattle.sg_store.specs.OneAttribute.{one_tame_answer};

    ghost askable = { IsTameable };

    ghost is_answer = { IsTameAnswer };

    ghost one_answer = { one_tame_answer };
}
