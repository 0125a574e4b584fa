//! Factorizations, their lengths and their number.
ghost use Rattle.std.specs.Prelude.{ℕ, [], ◌∷◌, pos, negsuc};
ghost use Rattle.sg_defs.specs.Listings.{Lists};
ghost use Rattle.sg_defs.specs.Membership.{IsFactorization};
ghost use Rattle.sg_nonunique.specs.Counts.{Exceeds};
ghost use Rattle.sg_nonunique.specs.Elasticity.{IsElasticity};
ghost use Rattle.sg_nonunique.specs.Factorizations.{AreFactorizations, IsLengthIn};

/// 12 = 4·3 = 5 + 7 in <3, 5, 7>, and 30 = 5·6 = 3·10 = 2·15. The gap 4 and a negative integer have none, and each
/// natural has one by the number 1.
pub fn factorizations()
    ensures twelve { AreFactorizations (3 ∷ 5 ∷ 7 ∷ []) (pos 12) ((4 ∷ 0 ∷ 0 ∷ []) ∷ (0 ∷ 1 ∷ 1 ∷ []) ∷ []) }
    ensures thirty { AreFactorizations (6 ∷ 10 ∷ 15 ∷ []) (pos 30) ((5 ∷ 0 ∷ 0 ∷ []) ∷ (0 ∷ 3 ∷ 0 ∷ []) ∷ (0 ∷ 0 ∷ 2 ∷ []) ∷ []) }
    ensures gap { AreFactorizations (3 ∷ 5 ∷ 7 ∷ []) (pos 4) [] }
    ensures negative { AreFactorizations (3 ∷ 5 ∷ 7 ∷ []) (negsuc 2) [] }
    ensures naturals { (n : ℕ) → AreFactorizations (1 ∷ []) (pos n) ((n ∷ []) ∷ []) }
{}

/// The lengths of 12 in <3, 5, 7>.
pub fn lengths()
    ensures { Lists (IsLengthIn (IsFactorization (3 ∷ 5 ∷ 7 ∷ []) 12)) (2 ∷ 4 ∷ []) }
{}

/// 30 has more than two factorizations in <6, 10, 15>, and no more than three.
pub fn counts()
    ensures two { Exceeds (IsFactorization (6 ∷ 10 ∷ 15 ∷ []) 30) 2 }
    ensures three { Exceeds (IsFactorization (6 ∷ 10 ∷ 15 ∷ []) 30) 3 → ⊥ }
{}

/// The elasticity of <3, 5> is 5/3, in lowest terms, and that of N is 1.
pub fn elasticity()
    ensures five_thirds { IsElasticity (3 ∷ 5 ∷ []) 5 3 }
    ensures not_in_lowest_terms { IsElasticity (3 ∷ 5 ∷ []) 10 6 → ⊥ }
    ensures naturals { IsElasticity (1 ∷ []) 1 1 }
{}
