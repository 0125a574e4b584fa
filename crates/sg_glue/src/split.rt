//! Two parts of a list.

use sg_nat::{Entry, ListOf, Nats};
use std::alloc::AllocError;
use std::marker::Model;

/// The minimal generators in two parts.
#[derive(Drop)]
pub struct Split {
    /// The part with the first generator, ascending.
    pub left: Nats,
    /// The other, ascending.
    pub right: Nats,
    /// The greatest common divisor of the first part.
    pub d_left: u64,
    /// That of the other.
    pub d_right: u64,
}

impl Model for Split {
    ghost use Rattle.sg_glue.specs.Gluings as gluings;

    ghost Value = { gluings.Split };

    ghost view = { λ s. record { left = s.left; right = s.right; d_left = s.d_left; d_right = s.d_right } };
}

/// A list of these.
pub type Splits = ListOf<Split>;

impl Entry for Split {
    fn try_copy(&self) -> Result<Split, AllocError> {
        Ok(Split {
            left: self.left.try_clone()?,
            right: self.right.try_clone()?,
            d_left: self.d_left,
            d_right: self.d_right,
        })
    }
}
