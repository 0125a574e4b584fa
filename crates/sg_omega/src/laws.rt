//! Laws over the definitions, each the contract of a function that does nothing.

ghost use Rattle.std.specs.Prelude.{◌≡◌, ◌≤◌, ◌↔◌, ℕ, List, sum};
ghost use Rattle.sg_nonunique.specs.Omega.{IsOmega, Serves};
ghost use Rattle.sg_omega.specs.Minimal.{IsGreatestLength, IsMinimalAbove};

/// A number serves exactly where no minimal vector above the element is longer, so the omega primality is the greatest
/// of their lengths (Geroldinger and Halter-Koch, Non-Unique Factorizations).
pub fn omega_is_the_greatest_minimal_length()
    ensures serves { (G : List ℕ) (n N : ℕ) → Serves G n N ↔ ((z : List ℕ) → IsMinimalAbove G n z → sum z ≤ N) }
    ensures greatest { (G : List ℕ) (n N : ℕ) → IsGreatestLength G n N → IsOmega G n N }
    ensures one { (G : List ℕ) (n M N : ℕ) → IsOmega G n M → IsOmega G n N → M ≡ N }
{}
