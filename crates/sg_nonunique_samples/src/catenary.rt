//! Catenary degrees.
ghost use Rattle.std.specs.Prelude.{[], ◌∷◌, ℕ};
ghost use Rattle.sg_defs.specs.Membership.{IsFactorization};
ghost use Rattle.sg_nonunique.specs.Catenary.{IsCatenary, IsCatenaryOf, IsChained};

/// The catenary degree of 12 in <3, 5, 7> is 4, that of 30 in <6, 10, 15> is 5, which joins the first factorization, and
/// a gap has 0.
pub fn of_elements()
    ensures twelve { IsCatenaryOf (IsFactorization (3 ∷ 5 ∷ 7 ∷ []) 12) 4 }
    ensures thirty { IsCatenaryOf (IsFactorization (6 ∷ 10 ∷ 15 ∷ []) 30) 5 }
    ensures gap { IsCatenaryOf (IsFactorization (3 ∷ 5 ∷ 7 ∷ []) 4) 0 }
{}

/// Over all elements, that of <2, 3> is 3, and that of N is 0.
pub fn of_semigroups()
    ensures two_three { IsCatenary (IsFactorization (2 ∷ 3 ∷ [])) 3 }
    ensures naturals { IsCatenary (IsFactorization (1 ∷ [])) 0 }
{}
