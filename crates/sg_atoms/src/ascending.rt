//! Vectors in order.

ghost use Rattle.std.specs.Prelude.{◌≡◌, length, All, Contains, IfOk};
ghost use Rattle.sg_defs.specs.Vectors.{ListsAscending};
ghost use Rattle.sg_atoms.specs.Sets.{AreDifferent, HaveOneLength};

use sg_nat::{Entry, Nats, Rows};
use std::alloc::{AllocError, Global};

/// The vectors, ascending lexicographically. They are different, and have as many places each.
pub fn ascending(alloc: Global, vectors: &[Nats]) -> Result<Rows, AllocError>
    requires different { AreDifferent vectors.now }
    requires places { HaveOneLength vectors.now }
    ensures { IfOk result (λ rows. ListsAscending (Contains vectors.now) rows) }
{
    let mut sorted = Vec::with_capacity(alloc, vectors.len())?;
    for vector in vectors {
        sorted.push(vector.try_copy()?)?;
    }
    sorted.sort_unstable();
    let mut rows = Rows::new(alloc);
    for vector in &sorted {
        rows.push(vector.try_copy()?)?;
    }
    Ok(rows)
}
