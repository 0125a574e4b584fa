//! Symmetric, pseudo-symmetric and irreducible numerical semigroups.
ghost use Rattle.std.specs.Prelude.{[], ◌∷◌};
ghost use Rattle.sg_defs.specs.Symmetry.{IsSymmetric, IsPseudoSymmetric, IsIrreducible};

/// <3, 5> is symmetric, and so is N. <3, 5, 7> is not, since neither 2 nor 4 - 2 is a member.
pub fn symmetric()
    ensures odd { IsSymmetric (3 ∷ 5 ∷ []) }
    ensures naturals { IsSymmetric (1 ∷ []) }
    ensures even { IsSymmetric (3 ∷ 5 ∷ 7 ∷ []) → ⊥ }
{}

/// <3, 5, 7> is pseudo-symmetric. <3, 5> is not, since its Frobenius number is odd.
pub fn pseudo_symmetric()
    ensures even { IsPseudoSymmetric (3 ∷ 5 ∷ 7 ∷ []) }
    ensures odd { IsPseudoSymmetric (3 ∷ 5 ∷ []) → ⊥ }
{}

/// <3, 7, 8> is the intersection of <3, 4> and <3, 5, 7>, which are irreducible, as <3, 5> and N are.
pub fn irreducible()
    ensures symmetric { IsIrreducible (3 ∷ 5 ∷ []) }
    ensures pseudo_symmetric { IsIrreducible (3 ∷ 5 ∷ 7 ∷ []) }
    ensures naturals { IsIrreducible (1 ∷ []) }
    ensures intersection { IsIrreducible (3 ∷ 7 ∷ 8 ∷ []) → ⊥ }
{}
