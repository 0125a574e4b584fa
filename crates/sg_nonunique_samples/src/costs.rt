//! What a budget counts, for the vectors [2] and [3].
ghost use Rattle.std.specs.Prelude.{◌↔◌, ◌≡◌, ◌⊎◌, ℕ, List, [], ◌∷◌, pos, negsuc};
ghost use Rattle.sg_defs.specs.Vectors.{ListsDescending};
ghost use Rattle.sg_nonunique.specs.Costs.{IsAtomValue, IsConstructionItem, IsCounted, IsIntegerPartial, IsPartial};
ghost use Rattle.sg_nonunique.specs.Counts.{Exceeds};

/// The vectors whose value is at most [6] are seven; none has a value at most [-1].
pub fn partial_vectors()
    ensures six { ListsDescending (IsPartial 1 ((2 ∷ []) ∷ (3 ∷ []) ∷ []) (6 ∷ []))
        ((3 ∷ 0 ∷ []) ∷ (2 ∷ 0 ∷ []) ∷ (1 ∷ 1 ∷ []) ∷ (1 ∷ 0 ∷ []) ∷ (0 ∷ 2 ∷ []) ∷ (0 ∷ 1 ∷ []) ∷ (0 ∷ 0 ∷ []) ∷ []) }
    ensures negative { (z : List ℕ) → IsIntegerPartial 1 ((2 ∷ []) ∷ (3 ∷ []) ∷ []) (negsuc 0 ∷ []) z → ⊥ }
{}

/// The values of minimal pairs are [2], [3] and [6].
pub fn atom_values()
    ensures { (v : List ℕ) → IsAtomValue 1 ((2 ∷ []) ∷ (3 ∷ []) ∷ []) v ↔ ((v ≡ 2 ∷ []) ⊎ ((v ≡ 3 ∷ []) ⊎ (v ≡ 6 ∷ []))) }
{}

/// So 14 + 2 + 3 + 7 = 26 items are counted for a presentation, and 1 + 2 = 3 for the construction.
pub fn costs()
    ensures presentation_above { Exceeds (IsCounted 1 ((2 ∷ []) ∷ (3 ∷ []) ∷ [])) 25 }
    ensures presentation_within { Exceeds (IsCounted 1 ((2 ∷ []) ∷ (3 ∷ []) ∷ [])) 26 → ⊥ }
    ensures construction_above { Exceeds (IsConstructionItem ((3 ∷ []) ∷ (2 ∷ []) ∷ (3 ∷ []) ∷ [])) 2 }
    ensures construction_within { Exceeds (IsConstructionItem ((3 ∷ []) ∷ (2 ∷ []) ∷ (3 ∷ []) ∷ [])) 3 → ⊥ }
{}
