//! What an expression gives.

use crate::id::{IdealId, SemId};
use crate::items::Items;
use sg_nat::{Bytes, Ratio};
use std::rc::Rc;

/// The value of an expression.
#[cycle(value)]
#[derive(Drop)]
pub enum Value {
    /// An integer.
    Int(i64),

    /// A truth value.
    Bool(bool),

    /// A text, as its bytes.
    Text(Rc<Bytes>),

    /// A list of values, each of any kind.
    List(Items),

    /// A fraction. Commands make it in lowest terms, with a denominator above 1.
    Ratio(Ratio),

    /// No answer.
    Fail,

    /// A numerical semigroup, by its place in a store.
    Sem(SemId),

    /// A relative ideal of a numerical semigroup, by its place in a store.
    Ideal(IdealId),
}
