//! Complete intersections.

ghost use Rattle.std.specs.Prelude.{◌<◌, IsTrue, ◌↔◌};
ghost use Rattle.sg_defs.specs.Membership.{IsFactorization};
ghost use Rattle.sg_nonunique.specs.Presentations.{IsCanonical};
ghost use Rattle.sg_glue.specs.Complete.{IsCompleteIntersection};

use sg_apery::Table;
use sg_betti::Presentation;

/// Whether the semigroup is a complete intersection: its minimal presentation has one relation less than there are minimal
/// generators (Rosales and Garcia-Sanchez, Numerical Semigroups, 2009, chapter 8). The relations given are those of its
/// canonical presentation. It takes no memory.
pub fn is_complete_intersection(t: &Table, relations: &Presentation) -> bool
    requires { IsCanonical (◌<◌) (IsFactorization t.now) relations.now }
    ensures { IsTrue result ↔ IsCompleteIntersection t.now }
{
    relations.len() == t.generators().len() - 1
}
