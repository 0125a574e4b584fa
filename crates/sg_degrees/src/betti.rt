//! The Betti elements, read from a presentation.

ghost use Rattle.std.specs.Prelude.{◌≡◌, ◌≤◌, ◌↔◌, ◌⊎◌, ℕ, All, Contains, IfOk};
ghost use Rattle.sg_degrees.specs.Values.{IsValueOf};

use sg_betti::Presentation;
use sg_nat::Nats;
use std::alloc::{AllocError, Global};

/// The values of the relations. A value that several relations have, one behind the other, comes once.
pub(crate) fn values_of(alloc: Global, p: &Presentation) -> Result<Nats, AllocError>
    ensures { IfOk result (λ values. (n : ℕ) → Contains values n ↔ IsValueOf p.now n) }
{
    let mut values = Vec::new(alloc);
    for relation in p.as_slice() {
        values.push(relation.value)?;
    }
    values.dedup();
    Nats::from_slice(alloc, &values)
}

/// The greatest of some numbers, and 0 where there is none.
pub(crate) fn greatest(values: &[u64]) -> u64
    ensures bound { All (λ n. n ≤ result) values.now }
    ensures reached { (result ≡ 0) ⊎ Contains values.now result }
{
    let mut greatest = 0u64;
    for value in values {
        greatest = greatest.max(*value);
    }
    greatest
}
