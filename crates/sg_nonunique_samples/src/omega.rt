//! Omega primality.
ghost use Rattle.std.specs.Prelude.{[], ◌∷◌};
ghost use Rattle.sg_nonunique.specs.Omega.{IsOmega, IsOmegaOfSemigroup};

/// The omega primality of 3 in <3, 5> is 3, since 3·5 lies above 3 and no two of these 5 do; that of 0 is 0.
pub fn of_elements()
    ensures three { IsOmega (3 ∷ 5 ∷ []) 3 3 }
    ensures zero { IsOmega (3 ∷ 5 ∷ []) 0 0 }
    ensures one { IsOmega (1 ∷ []) 1 1 }
{}

/// That of N is 1.
pub fn of_semigroups()
    ensures { IsOmegaOfSemigroup (1 ∷ []) 1 }
{}
