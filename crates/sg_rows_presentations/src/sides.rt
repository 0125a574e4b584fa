//! Relations as lists of vectors.

ghost use Rattle.std.specs.Prelude.{◌≡◌, IfOk, map};
ghost use Rattle.sg_rows_presentations.specs.Read.{sides};

use sg_betti::{Presentation, Relation};
use sg_nat::{ListOf, Rows};
use std::alloc::{AllocError, Global};

/// The two sides of a relation.
fn both_sides(alloc: Global, relation: &Relation) -> Result<Rows, AllocError>
    ensures { IfOk result (λ rows. rows ≡ sides relation.now) }
{
    let mut rows = Rows::new(alloc);
    rows.push(relation.left.try_clone()?)?;
    rows.push(relation.right.try_clone()?)?;
    Ok(rows)
}

/// The sides of each relation.
pub(crate) fn sides_of(alloc: Global, relations: &Presentation) -> Result<ListOf<Rows>, AllocError>
    ensures { IfOk result (λ lists. lists ≡ map sides relations.now) }
{
    let mut lists = ListOf::new(alloc);
    for relation in relations.as_slice() {
        lists.push(both_sides(alloc, relation)?)?;
    }
    Ok(lists)
}
