//! Laws over the definitions, each the contract of a function that does nothing.

ghost use Rattle.std.specs.Prelude.{◌≡◌, ◌<◌, ◌≤◌, ◌↔◌, ℕ, List, All, length, slice_index};
ghost use Rattle.sg_defs.specs.Membership.{IsNumericalSemigroup};
ghost use Rattle.sg_defs.specs.Vectors.{value_of};
ghost use Rattle.sg_omega.specs.Minimal.{IsMinimalAbove};
ghost use Rattle.sg_tame.specs.Minimal.{IsGreatestLeastDistance};
ghost use Rattle.sg_tame.specs.Tame.{IsNear, IsTame, IsTameBound};

/// A number bounds all cases exactly where it bounds those of the vectors that are minimal above a generator, so the
/// tame degree is the greatest of their least distances (Geroldinger and Halter-Koch, Non-Unique Factorizations).
pub fn the_tame_degree_comes_from_minimal_vectors()
    ensures bound { (G : List ℕ) (N : ℕ) → IsTameBound G N ↔
        ((i : ℕ) (z : List ℕ) → i < length G → IsMinimalAbove G (slice_index G i) z → IsNear G (value_of G z) i z N) }
    ensures greatest { (G : List ℕ) (N : ℕ) → All (λ g. 1 ≤ g) G → IsGreatestLeastDistance G N → IsTame G N }
    ensures reached { (G : List ℕ) (N : ℕ) → IsNumericalSemigroup G → IsTame G N → IsGreatestLeastDistance G N }
    ensures one { (G : List ℕ) (M N : ℕ) → IsTame G M → IsTame G N → M ≡ N }
{}

/// Each numerical semigroup has a tame degree.
pub fn the_tame_degree_exists()
    ensures { (G : List ℕ) → IsNumericalSemigroup G → (N : ℕ) × IsTame G N }
{}
