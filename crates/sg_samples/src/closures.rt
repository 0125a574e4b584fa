//! Arf, maximal embedding dimension and saturated, and the closure of <3, 5> of each kind.
ghost use Rattle.std.specs.Prelude.{[], ◌∷◌};
ghost use Rattle.sg_defs.specs.Closures.{IsArf, IsMed, IsSaturated, IsArfClosure, IsMedClosure, IsSaturatedClosure};

/// <3, 5, 7> is Arf. <3, 5> is not, since it lacks 5 + 5 - 3.
pub fn arf()
    ensures with_seven { IsArf (3 ∷ 5 ∷ 7 ∷ []) }
    ensures without { IsArf (3 ∷ 5 ∷ []) → ⊥ }
{}

/// <3, 5, 7> has as many generators as its multiplicity says, and <3, 5> has fewer.
pub fn maximal_embedding_dimension()
    ensures with_seven { IsMed (3 ∷ 5 ∷ 7 ∷ []) }
    ensures without { IsMed (3 ∷ 5 ∷ []) → ⊥ }
{}

/// <3, 5, 7> is saturated. <3, 5> is not, since 5 + (5 - 3) is missing.
pub fn saturated()
    ensures with_seven { IsSaturated (3 ∷ 5 ∷ 7 ∷ []) }
    ensures without { IsSaturated (3 ∷ 5 ∷ []) → ⊥ }
{}

/// <3, 5, 7> is the least of each kind above <3, 5>.
pub fn least_of_each_kind()
    ensures arf { IsArfClosure (3 ∷ 5 ∷ []) (3 ∷ 5 ∷ 7 ∷ []) }
    ensures med { IsMedClosure (3 ∷ 5 ∷ []) (3 ∷ 5 ∷ 7 ∷ []) }
    ensures saturated { IsSaturatedClosure (3 ∷ 5 ∷ []) (3 ∷ 5 ∷ 7 ∷ []) }
{}
