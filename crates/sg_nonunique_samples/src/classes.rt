//! R-classes and Betti elements.
ghost use Rattle.std.specs.Prelude.{[], ◌∷◌};
ghost use Rattle.sg_defs.specs.Membership.{IsFactorization};
ghost use Rattle.sg_nonunique.specs.Classes.{HasTwoClasses, IsSameClass};

/// 10 has two classes in <3, 5, 7>, and 0 has one. 17 has one too: 4·3 + 5 and 3 + 2·7 share 3, and 2·5 + 7 shares with
/// both.
pub fn betti_elements()
    ensures ten { HasTwoClasses (IsFactorization (3 ∷ 5 ∷ 7 ∷ []) 10) }
    ensures zero { HasTwoClasses (IsFactorization (3 ∷ 5 ∷ 7 ∷ []) 0) → ⊥ }
    ensures seventeen { HasTwoClasses (IsFactorization (3 ∷ 5 ∷ 7 ∷ []) 17) → ⊥ }
{}

/// The three factorizations of 30 in <6, 10, 15> are in three classes.
pub fn three_classes()
    ensures first_and_second { IsSameClass (IsFactorization (6 ∷ 10 ∷ 15 ∷ []) 30) (5 ∷ 0 ∷ 0 ∷ []) (0 ∷ 3 ∷ 0 ∷ []) → ⊥ }
    ensures first_and_third { IsSameClass (IsFactorization (6 ∷ 10 ∷ 15 ∷ []) 30) (5 ∷ 0 ∷ 0 ∷ []) (0 ∷ 0 ∷ 2 ∷ []) → ⊥ }
    ensures second_and_third { IsSameClass (IsFactorization (6 ∷ 10 ∷ 15 ∷ []) 30) (0 ∷ 3 ∷ 0 ∷ []) (0 ∷ 0 ∷ 2 ∷ []) → ⊥ }
{}
