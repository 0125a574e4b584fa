//! The Betti elements, read from a presentation.

ghost use Rattle.std.specs.Prelude.{IfOk};
ghost use Rattle.sg_defs.specs.Listings.{Lists};
ghost use Rattle.sg_degrees.specs.Values.{IsValueOf};

use sg_betti::Presentation;
use sg_nat::Nats;
use std::alloc::{AllocError, Global};

/// The values of the relations, ascending. A value that several relations have comes once.
pub(crate) fn elements_of(alloc: Global, relations: &Presentation) -> Result<Nats, AllocError>
    ensures { IfOk result (Lists (IsValueOf relations.now)) }
{
    let mut values = Vec::new(alloc);
    for relation in relations.as_slice() {
        values.push(relation.value)?;
    }
    values.sort_unstable();
    values.dedup();
    Nats::from_slice(alloc, &values)
}
