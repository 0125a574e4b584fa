//! The invariants of N = <1>, <3, 5> and <3, 5, 7>.
ghost use Rattle.std.specs.Prelude.{[], ◌∷◌, pos, negsuc};
ghost use Rattle.sg_defs.specs.Listings.{Lists, ListsIntegers};
ghost use Rattle.sg_defs.specs.Invariants.{IsFrobenius, IsConductor, IsGap, IsGenus, AreSmallElements, IsPseudoFrobenius, IsSpecialGap, IsFundamentalGap, IsType};

/// The Frobenius number of <3, 5> is 7, and not the gap 4 below it. That of N is -1.
pub fn frobenius_number()
    ensures greatest { IsFrobenius (3 ∷ 5 ∷ []) (pos 7) }
    ensures lesser { IsFrobenius (3 ∷ 5 ∷ []) (pos 4) → ⊥ }
    ensures naturals { IsFrobenius (1 ∷ []) (negsuc 0) }
{}

/// The conductor of <3, 5, 7> is 5, and that of N is 0.
pub fn conductor()
    ensures five { IsConductor (3 ∷ 5 ∷ 7 ∷ []) 5 }
    ensures naturals { IsConductor (1 ∷ []) 0 }
{}

/// The gaps of <3, 5> are 1, 2, 4 and 7, so its genus is 4. That of N is 0.
pub fn gaps_and_genus()
    ensures gaps { Lists (IsGap (3 ∷ 5 ∷ [])) (1 ∷ 2 ∷ 4 ∷ 7 ∷ []) }
    ensures genus { IsGenus (3 ∷ 5 ∷ []) 4 }
    ensures naturals { IsGenus (1 ∷ []) 0 }
{}

/// The small elements end with the conductor.
pub fn small_elements()
    ensures to_five { AreSmallElements (3 ∷ 5 ∷ 7 ∷ []) (0 ∷ 3 ∷ 5 ∷ []) }
    ensures naturals { AreSmallElements (1 ∷ []) (0 ∷ []) }
{}

/// The pseudo-Frobenius numbers of <3, 5, 7> are 2 and 4, so its type is 2. N has the one number -1.
pub fn pseudo_frobenius_numbers()
    ensures two { ListsIntegers (IsPseudoFrobenius (3 ∷ 5 ∷ 7 ∷ [])) (pos 2 ∷ pos 4 ∷ []) }
    ensures count { IsType (3 ∷ 5 ∷ 7 ∷ []) 2 }
    ensures naturals { ListsIntegers (IsPseudoFrobenius (1 ∷ [])) (negsuc 0 ∷ []) }
{}

/// Of 2 and 4 only 4 is a special gap of <3, 5, 7>, since twice 2 is a gap. N has none.
pub fn special_gaps()
    ensures four { ListsIntegers (IsSpecialGap (3 ∷ 5 ∷ 7 ∷ [])) (pos 4 ∷ []) }
    ensures naturals { ListsIntegers (IsSpecialGap (1 ∷ [])) [] }
{}

/// Of the gaps 1, 2 and 4 of <3, 5, 7> only 4 has all its multiples in the semigroup.
pub fn fundamental_gaps()
    ensures { Lists (IsFundamentalGap (3 ∷ 5 ∷ 7 ∷ [])) (4 ∷ []) }
{}
