//! Vectors of naturals: what is done place by place, the lexicographic order and the distance.
ghost use Rattle.std.specs.Prelude.{◌≡◌, [], ◌∷◌};
ghost use Rattle.sg_defs.specs.Membership.{IsFactorization};
ghost use Rattle.sg_defs.specs.Vectors.{value_of, plus, minus, meet, scale, distance, IsBelow, IsLexBelow, ListsAscending, ListsDescending};

/// Value, sum, difference, common part and multiple.
pub fn places()
    ensures value { value_of (6 ∷ 9 ∷ 20 ∷ []) (4 ∷ 4 ∷ 0 ∷ []) ≡ 60 }
    ensures sum { plus (1 ∷ 2 ∷ []) (3 ∷ 0 ∷ []) ≡ 4 ∷ 2 ∷ [] }
    ensures difference { minus (5 ∷ 1 ∷ []) (2 ∷ 3 ∷ []) ≡ 3 ∷ 0 ∷ [] }
    ensures common { meet (4 ∷ 0 ∷ 1 ∷ []) (1 ∷ 2 ∷ 1 ∷ []) ≡ 1 ∷ 0 ∷ 1 ∷ [] }
    ensures multiple { scale 3 (1 ∷ 2 ∷ []) ≡ 3 ∷ 6 ∷ [] }
{}

/// Below means: at no place above.
pub fn below_at_each_place()
    ensures below { IsBelow (0 ∷ 2 ∷ []) (1 ∷ 2 ∷ []) }
    ensures across { IsBelow (2 ∷ 0 ∷ []) (1 ∷ 2 ∷ []) → ⊥ }
{}

/// At the first place that differs the greater number decides.
pub fn first_differing_place_decides()
    ensures lower { IsLexBelow (0 ∷ 2 ∷ 0 ∷ []) (1 ∷ 0 ∷ 1 ∷ []) }
    ensures strict { IsLexBelow (1 ∷ 0 ∷ 1 ∷ []) (0 ∷ 2 ∷ 0 ∷ []) → ⊥ }
{}

/// Two factorizations of 12 in <3, 5, 7> that share nothing, and two of 17 of which the 3 that they share is left out.
pub fn distances()
    ensures apart { distance (4 ∷ 0 ∷ 0 ∷ []) (0 ∷ 1 ∷ 1 ∷ []) ≡ 4 }
    ensures shared { distance (4 ∷ 1 ∷ 0 ∷ []) (1 ∷ 0 ∷ 2 ∷ []) ≡ 4 }
{}

/// 15 is 5 times 3 and 3 times 5, and the vector with more 3 is the greater.
pub fn factorizations_of_fifteen()
    ensures descending { ListsDescending (IsFactorization (3 ∷ 5 ∷ []) 15) ((5 ∷ 0 ∷ []) ∷ (0 ∷ 3 ∷ []) ∷ []) }
    ensures ascending { ListsAscending (IsFactorization (3 ∷ 5 ∷ []) 15) ((0 ∷ 3 ∷ []) ∷ (5 ∷ 0 ∷ []) ∷ []) }
{}
