//! Laws of the definitions, for every list of generators.
ghost use Rattle.std.specs.Prelude.{ℕ, List};
ghost use Rattle.sg_defs.specs.Symmetry.{IsSymmetric, IsPseudoSymmetric, IsIrreducible};

/// A symmetric numerical semigroup is irreducible: all that hold it properly hold its Frobenius number
/// (Rosales and Garcia-Sanchez, Numerical Semigroups, chapter 3).
pub fn symmetric_semigroups_are_irreducible()
    ensures { (G : List ℕ) → IsSymmetric G → IsIrreducible G }
{}

/// So is a pseudo-symmetric one.
pub fn pseudo_symmetric_semigroups_are_irreducible()
    ensures { (G : List ℕ) → IsPseudoSymmetric G → IsIrreducible G }
{}
