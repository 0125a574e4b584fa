//! Relative ideals: that of 0 and 1 over <3, 5>, and the canonical ideal of <3, 7, 8>.
ghost use Rattle.std.specs.Prelude.{◌↔◌, [], ◌∷◌, ℤ, pos, negsuc};
ghost use Rattle.sg_defs.specs.Ideals.{IsIdealMember, IsInSum, IsInDifference, IsInMultiple, IsInTranslate, IsInCanonical, IsInMaximal, IsMinimalIdeal};
ghost use Rattle.sg_defs.specs.Membership.{IsIntegerMember};

/// 4 = 1 + 3 is in the ideal of 0 and 1 over <3, 5>, and 2 is not.
pub fn ideal_members()
    ensures four { IsIdealMember (3 ∷ 5 ∷ []) (pos 0 ∷ pos 1 ∷ []) (pos 4) }
    ensures two { IsIdealMember (3 ∷ 5 ∷ []) (pos 0 ∷ pos 1 ∷ []) (pos 2) → ⊥ }
{}

/// 2 = 1 + 1 is in that ideal with itself added, and -1 is not.
pub fn sums()
    ensures two { IsInSum (IsIdealMember (3 ∷ 5 ∷ []) (pos 0 ∷ pos 1 ∷ [])) (IsIdealMember (3 ∷ 5 ∷ []) (pos 0 ∷ pos 1 ∷ [])) (pos 2) }
    ensures negative { IsInSum (IsIdealMember (3 ∷ 5 ∷ []) (pos 0 ∷ pos 1 ∷ [])) (IsIdealMember (3 ∷ 5 ∷ []) (pos 0 ∷ pos 1 ∷ [])) (negsuc 0) → ⊥ }
{}

/// 2 is in twice that ideal, and not in once the ideal.
pub fn multiples()
    ensures twice { IsInMultiple 2 (IsIdealMember (3 ∷ 5 ∷ []) (pos 0 ∷ pos 1 ∷ [])) (pos 2) }
    ensures once { IsInMultiple 1 (IsIdealMember (3 ∷ 5 ∷ []) (pos 0 ∷ pos 1 ∷ [])) (pos 2) → ⊥ }
{}

/// Moved by 5 the ideal has 6 = 5 + 1, and not 7 = 5 + 2.
pub fn translates()
    ensures six { IsInTranslate (pos 5) (IsIdealMember (3 ∷ 5 ∷ []) (pos 0 ∷ pos 1 ∷ [])) (pos 6) }
    ensures seven { IsInTranslate (pos 5) (IsIdealMember (3 ∷ 5 ∷ []) (pos 0 ∷ pos 1 ∷ [])) (pos 7) → ⊥ }
{}

/// The pseudo-Frobenius number 7 moves the maximal ideal of <3, 5> into the semigroup. 4 moves 3 to the gap 7.
pub fn differences()
    ensures seven { IsInDifference (IsIntegerMember (3 ∷ 5 ∷ [])) (IsInMaximal (3 ∷ 5 ∷ [])) (pos 7) }
    ensures four { IsInDifference (IsIntegerMember (3 ∷ 5 ∷ [])) (IsInMaximal (3 ∷ 5 ∷ [])) (pos 4) → ⊥ }
{}

/// The maximal ideal has all members but 0.
pub fn maximal_ideal()
    ensures three { IsInMaximal (3 ∷ 5 ∷ []) (pos 3) }
    ensures zero { IsInMaximal (3 ∷ 5 ∷ []) (pos 0) → ⊥ }
{}

/// The canonical ideal of <3, 7, 8> is that of 0 and 1.
pub fn canonical_ideal()
    ensures { (x : ℤ) → IsInCanonical (3 ∷ 7 ∷ 8 ∷ []) x ↔ IsIdealMember (3 ∷ 7 ∷ 8 ∷ []) (pos 0 ∷ pos 1 ∷ []) x }
{}

/// 0 and 1 are a minimal list over <3, 5>. 0 and 3 are not.
pub fn minimal_lists_of_ideals()
    ensures minimal { IsMinimalIdeal (3 ∷ 5 ∷ []) (pos 0 ∷ pos 1 ∷ []) }
    ensures spare { IsMinimalIdeal (3 ∷ 5 ∷ []) (pos 0 ∷ pos 3 ∷ []) → ⊥ }
{}
