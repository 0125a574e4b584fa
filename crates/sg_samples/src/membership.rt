//! Members, numerical semigroups, minimal lists, multiplicities and Apery lists.
ghost use Rattle.std.specs.Prelude.{◌≢◌, [], ◌∷◌, pos, negsuc};
ghost use Rattle.sg_defs.specs.Apery.{IsApery, IsAperyEntry};
ghost use Rattle.sg_defs.specs.Membership.{IsMember, IsIntegerMember, IsNumericalSemigroup, IsMinimal, Generates, Holds, IsMultiplicity};

/// 8 = 3 + 5 is a member of <3, 5>, and 7 is none, nor is any negative integer.
pub fn members()
    ensures eight { IsMember (3 ∷ 5 ∷ []) 8 }
    ensures seven { IsMember (3 ∷ 5 ∷ []) 7 → ⊥ }
    ensures integer { IsIntegerMember (3 ∷ 5 ∷ []) (pos 8) }
    ensures negative { IsIntegerMember (3 ∷ 5 ∷ []) (negsuc 2) → ⊥ }
{}

/// 3 and 5 generate a numerical semigroup, and so does 1. The even numbers 4 and 6 do not.
pub fn numerical_semigroups()
    ensures coprime { IsNumericalSemigroup (3 ∷ 5 ∷ []) }
    ensures naturals { IsNumericalSemigroup (1 ∷ []) }
    ensures even { IsNumericalSemigroup (4 ∷ 6 ∷ []) → ⊥ }
{}

/// With 8 = 3 + 5 the list is not minimal.
pub fn minimal_lists()
    ensures minimal { IsMinimal (3 ∷ 5 ∷ []) }
    ensures spare { IsMinimal (3 ∷ 5 ∷ 8 ∷ []) → ⊥ }
{}

/// The naturals but 1, 2 and 4 are <3, 5, 7>, and <3, 5, 8> is <3, 5>.
pub fn generated_semigroups()
    ensures all_but_three { Generates (λ n. (n ≢ 1) × (n ≢ 2) × (n ≢ 4)) (3 ∷ 5 ∷ 7 ∷ []) }
    ensures without_the_spare { Generates (IsMember (3 ∷ 5 ∷ 8 ∷ [])) (3 ∷ 5 ∷ []) }
{}

/// <3, 5, 7> holds <3, 5>, and not the other way round.
pub fn holding()
    ensures more { Holds (3 ∷ 5 ∷ 7 ∷ []) (3 ∷ 5 ∷ []) }
    ensures fewer { Holds (3 ∷ 5 ∷ []) (3 ∷ 5 ∷ 7 ∷ []) → ⊥ }
{}

/// The multiplicity of <3, 5> is 3, and not 5.
pub fn multiplicity()
    ensures least { IsMultiplicity (3 ∷ 5 ∷ []) 3 }
    ensures greater { IsMultiplicity (3 ∷ 5 ∷ []) 5 → ⊥ }
{}

/// The Apery list of <3, 5> modulo 3.
pub fn apery_list()
    ensures list { IsApery (3 ∷ 5 ∷ []) 3 (0 ∷ 10 ∷ 5 ∷ []) }
    ensures entry { IsAperyEntry (3 ∷ 5 ∷ []) 3 1 10 }
    ensures greater { IsAperyEntry (3 ∷ 5 ∷ []) 3 1 13 → ⊥ }
{}
