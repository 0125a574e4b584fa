//! The three tests, by the genus and the conductor, which is 1 more than the Frobenius number.

ghost use Rattle.std.specs.Prelude.{IsTrue, ◌↔◌};
ghost use Rattle.sg_defs.specs.Symmetry.{IsSymmetric, IsPseudoSymmetric, IsIrreducible};

use sg_apery::Table;
use sg_invar::{conductor, genus};

/// Whether for every integer `x` exactly one of `x` and `F - x` is a member, where `F` is the Frobenius number: twice
/// the genus is then `F + 1`, the least that it can be (Rosales and Garcia-Sanchez, Corollary 4.5). It takes no memory.
pub fn is_symmetric(table: &Table) -> bool
    ensures { IsTrue result ↔ IsSymmetric table.now }
{
    2 * genus(table) == conductor(table)
}

/// Whether `F` is even and the same holds of every integer but its half: twice the genus is then `F + 2` (Rosales and
/// Garcia-Sanchez, Corollary 4.5). It takes no memory.
pub fn is_pseudo_symmetric(table: &Table) -> bool
    ensures { IsTrue result ↔ IsPseudoSymmetric table.now }
{
    conductor(table) + 1 == 2 * genus(table)
}

/// Whether it is no meet of two numerical semigroups that properly hold it: it is symmetric or pseudo-symmetric
/// (Rosales and Garcia-Sanchez, Proposition 4.4). It takes no memory.
pub fn is_irreducible(table: &Table) -> bool
    ensures { IsTrue result ↔ IsIrreducible table.now }
{
    let double = 2 * genus(table);
    let least = conductor(table);
    double == least || double == least + 1
}
