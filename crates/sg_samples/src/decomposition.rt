//! Decompositions of <3, 7, 8>, <4, 6, 7, 9> and N into irreducible numerical semigroups.
ghost use Rattle.std.specs.Prelude.{[], ◌∷◌, pos};
ghost use Rattle.sg_defs.specs.Decomposition.{IsInCover, IsDecomposition, IsIrredundant};
ghost use Rattle.sg_defs.specs.Membership.{Generates};

/// The covers of the special gaps 5 and 4 of <3, 7, 8>.
pub fn covers()
    ensures five { Generates (IsInCover (3 ∷ 7 ∷ 8 ∷ []) (pos 5)) (3 ∷ 4 ∷ []) }
    ensures four { Generates (IsInCover (3 ∷ 7 ∷ 8 ∷ []) (pos 4)) (3 ∷ 5 ∷ 7 ∷ []) }
{}

/// Of <3, 7, 8> both special gaps are chosen, the greater first. Of the special gaps 5, 3 and 2 of <4, 6, 7, 9> the
/// last is left, since 2 does not lie in the cover <3, 4> of 5. N has no special gap, and is its own decomposition.
pub fn decompositions()
    ensures all { IsDecomposition (3 ∷ 7 ∷ 8 ∷ []) ((3 ∷ 4 ∷ []) ∷ (3 ∷ 5 ∷ 7 ∷ []) ∷ []) }
    ensures one_is_left { IsDecomposition (4 ∷ 6 ∷ 7 ∷ 9 ∷ []) ((3 ∷ 4 ∷ []) ∷ (2 ∷ 5 ∷ []) ∷ []) }
    ensures naturals { IsDecomposition (1 ∷ []) ((1 ∷ []) ∷ []) }
{}

/// Neither can be left out.
pub fn irredundant_decompositions()
    ensures two { IsIrredundant (3 ∷ 7 ∷ 8 ∷ []) ((3 ∷ 4 ∷ []) ∷ (3 ∷ 5 ∷ 7 ∷ []) ∷ []) }
    ensures naturals { IsIrredundant (1 ∷ []) ((1 ∷ []) ∷ []) }
    ensures one { IsIrredundant (3 ∷ 7 ∷ 8 ∷ []) ((3 ∷ 4 ∷ []) ∷ []) → ⊥ }
{}
