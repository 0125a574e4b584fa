//! What makes values of lists.

ghost use Rattle.std.specs.Prelude.{ℕ, List, IfOk};

use sg_nat::Nats;
use std::alloc::{AllocError, Global};

/// What makes values of lists.
pub trait Makes<A>: Drop {
    /// The lists that it may be called at.
    ghost takes: { Self → List ℕ → Type 0 };

    /// The values that it may give for a list.
    ghost gives: { Self → List ℕ → A → Type 0 };

    /// A value for this list, or want of memory.
    fn make(&self, alloc: Global, key: &Nats) -> Result<A, AllocError>
        requires { takes self.now key.now }
        ensures { IfOk result (λ a. gives self.now key.now a) };
}

/// A function or closure as a maker. It stands in a wrapper, so that a type may be a maker by an impl of its own.
#[derive(Drop)]
pub struct Called<F> {
    /// What is called.
    pub function: F,
}

impl<A, F: Fn(Global, &Nats) -> Result<A, AllocError>> Makes<A> for Called<F> {
    ghost use Rattle.std.specs.Prelude.{◌≡◌, ℕ, List, Ok};
    ghost use Rattle.std.specs.Borrow.{Bor};
    ghost use Rattle.std.specs.declared.alloc.Global.{Global};

    ghost takes = { λ f key. (alloc : Global) (k : Bor (List ℕ)) → k.now ≡ key → F.pre f.function alloc k };

    ghost gives = { λ f key a. (alloc : Global) × (k : Bor (List ℕ)) × (k.now ≡ key) × F.post f.function alloc k (Ok a) };

    fn make(&self, alloc: Global, key: &Nats) -> Result<A, AllocError> {
        (self.function)(alloc, key)
    }
}
