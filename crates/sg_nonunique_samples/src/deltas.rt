//! Deltas of an element and of all elements.
ghost use Rattle.std.specs.Prelude.{[], ◌∷◌, None, Some};
ghost use Rattle.sg_defs.specs.Listings.{Lists};
ghost use Rattle.sg_defs.specs.Membership.{IsFactorization};
ghost use Rattle.sg_nonunique.specs.Deltas.{IsDelta, IsMaxDelta, IsMinDelta};

/// 12 has the lengths 2 and 4 in <3, 5, 7>, and 30 has 2, 3 and 5 in <6, 10, 15>.
pub fn deltas()
    ensures twelve { Lists (IsDelta (IsFactorization (3 ∷ 5 ∷ 7 ∷ []) 12)) (2 ∷ []) }
    ensures thirty { Lists (IsDelta (IsFactorization (6 ∷ 10 ∷ 15 ∷ []) 30)) (1 ∷ 2 ∷ []) }
{}

/// Each delta of <3, 5> is 2, and N has none.
pub fn extreme_deltas()
    ensures least { IsMinDelta (IsFactorization (3 ∷ 5 ∷ [])) (Some 2) }
    ensures greatest { IsMaxDelta (IsFactorization (3 ∷ 5 ∷ [])) (Some 2) }
    ensures none_is_least { IsMinDelta (IsFactorization (1 ∷ [])) None }
    ensures none_is_greatest { IsMaxDelta (IsFactorization (1 ∷ [])) None }
{}
