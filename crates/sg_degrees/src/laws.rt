//! Laws over the definitions, each the contract of a function that does nothing (Geroldinger and Halter-Koch, Non-Unique
//! Factorizations, 1.6 and 3).

ghost use Rattle.std.specs.Prelude.{◌≡◌, ◌<◌, ◌≤◌, ℕ, List, Option, None, Some, All, length};
ghost use Rattle.sg_defs.specs.Membership.{IsFactorization, IsMinimal, IsNumericalSemigroup};
ghost use Rattle.sg_nonunique.specs.Catenary.{IsCatenary};
ghost use Rattle.sg_nonunique.specs.Deltas.{IsMaxDelta, IsMinDelta};
ghost use Rattle.sg_laws_families.specs.Bounds.{IsDifferenceGcd, IsGreatestBettiDelta, IsGreatestLeastLength};

/// The catenary degree, over every element, is the greatest, over Betti elements and their classes, of the least length in
/// the class.
pub fn catenary_degrees_come_from_classes()
    ensures { (G : List ℕ) (N : ℕ) → All (λ g. 1 ≤ g) G → IsGreatestLeastLength (IsFactorization G) N → IsCatenary (IsFactorization G) N }
{}

/// The greatest delta of all elements occurs at a Betti element.
pub fn greatest_deltas_come_from_betti_elements()
    ensures { (G : List ℕ) (r : Option ℕ) → All (λ g. 1 ≤ g) G → IsGreatestBettiDelta (IsFactorization G) r → IsMaxDelta (IsFactorization G) r }
{}

/// The least delta of all elements is the greatest common divisor of the differences of the generators and the first one,
/// and there is none where that is 0.
pub fn least_deltas_are_common_divisors()
    ensures none { (G : List ℕ) → IsNumericalSemigroup G → IsMinimal G → IsDifferenceGcd G 0 → IsMinDelta (IsFactorization G) None }
    ensures some { (G : List ℕ) (g : ℕ) → IsNumericalSemigroup G → IsMinimal G → 0 < g → IsDifferenceGcd G g → IsMinDelta (IsFactorization G) (Some g) }
{}

/// Of a minimal list with two generators or more some element has a delta: only the naturals have none.
pub fn only_the_naturals_have_no_delta()
    ensures naturals { (G : List ℕ) → IsNumericalSemigroup G → IsMinimal G → length G ≡ 1 → IsMinDelta (IsFactorization G) None }
    ensures others { (G : List ℕ) → IsNumericalSemigroup G → IsMinimal G → 1 < length G → (d : ℕ) × IsMinDelta (IsFactorization G) (Some d) }
{}
