//! Laws over the definitions, each the contract of a function that does nothing.

ghost use Rattle.std.specs.Prelude.{◌≡◌, ◌<◌, ℕ, ℤ, List, Option};
ghost use Rattle.sg_defs.specs.Listings.{Lists};
ghost use Rattle.sg_defs.specs.Membership.{IsFactorization, IsMinimal, IsNumericalSemigroup};
ghost use Rattle.sg_nonunique.specs.Catenary.{IsCatenary, IsCatenaryOf};
ghost use Rattle.sg_nonunique.specs.Classes.{HasTwoClasses};
ghost use Rattle.sg_nonunique.specs.Counts.{Exceeds};
ghost use Rattle.sg_nonunique.specs.Deltas.{IsDelta, IsMaxDelta, IsMinDelta};
ghost use Rattle.sg_nonunique.specs.Elasticity.{IsElasticity};
ghost use Rattle.sg_nonunique.specs.Factorizations.{AreFactorizations, IsIntegerFactorization, IsLengthIn};
ghost use Rattle.sg_nonunique.specs.Omega.{IsOmega, IsOmegaOfSemigroup};
ghost use Rattle.sg_nonunique.specs.Presentations.{IsCanonical, Relation};
ghost use Rattle.sg_laws_invariants.specs.Decided.{Decided};

/// Each integer has a list of its factorizations, one of their lengths and one of its deltas, and a catenary degree, and
/// each natural an omega primality; and it is decided whether there are more factorizations than a bound.
pub fn elements_are_settled()
    ensures factorizations { (G : List ℕ) (x : ℤ) → IsNumericalSemigroup G → (l : List (List ℕ)) × AreFactorizations G x l }
    ensures counts { (G : List ℕ) (x : ℤ) (b : ℕ) → IsNumericalSemigroup G → Decided (Exceeds (IsIntegerFactorization G x) b) }
    ensures lengths { (G : List ℕ) (x : ℤ) → IsNumericalSemigroup G → (l : List ℕ) × Lists (IsLengthIn (IsIntegerFactorization G x)) l }
    ensures deltas { (G : List ℕ) (x : ℤ) → IsNumericalSemigroup G → (l : List ℕ) × Lists (IsDelta (IsIntegerFactorization G x)) l }
    ensures catenary { (G : List ℕ) (x : ℤ) → IsNumericalSemigroup G → (c : ℕ) × IsCatenaryOf (IsIntegerFactorization G x) c }
    ensures omega { (G : List ℕ) (n : ℕ) → IsNumericalSemigroup G → (N : ℕ) × IsOmega G n N }
{}

/// Each numerical semigroup has its Betti elements, canonical relations, catenary degree, greatest delta and omega
/// primality, and by its minimal generators also its elasticity and least delta.
pub fn semigroups_are_settled()
    ensures elasticity { (G : List ℕ) → IsNumericalSemigroup G → IsMinimal G → (p q : ℕ) × IsElasticity G p q }
    ensures betti_elements { (G : List ℕ) → IsNumericalSemigroup G → (l : List ℕ) × Lists (λ n. HasTwoClasses (IsFactorization G n)) l }
    ensures relations { (G : List ℕ) → IsNumericalSemigroup G → (P : List (Relation ℕ)) × IsCanonical (◌<◌) (IsFactorization G) P }
    ensures catenary { (G : List ℕ) → IsNumericalSemigroup G → (c : ℕ) × IsCatenary (IsFactorization G) c }
    ensures least_delta { (G : List ℕ) → IsNumericalSemigroup G → IsMinimal G → (r : Option ℕ) × IsMinDelta (IsFactorization G) r }
    ensures greatest_delta { (G : List ℕ) → IsNumericalSemigroup G → (r : Option ℕ) × IsMaxDelta (IsFactorization G) r }
    ensures omega { (G : List ℕ) → IsNumericalSemigroup G → (N : ℕ) × IsOmegaOfSemigroup G N }
{}

/// An integer has one list of its factorizations, one of their lengths, one of its deltas and one catenary degree at most,
/// and a natural one omega primality.
pub fn elements_have_one_answer()
    ensures factorizations { (G : List ℕ) (x : ℤ) (l m : List (List ℕ)) → AreFactorizations G x l → AreFactorizations G x m → l ≡ m }
    ensures lengths { (G : List ℕ) (x : ℤ) (l m : List ℕ) → Lists (IsLengthIn (IsIntegerFactorization G x)) l → Lists (IsLengthIn (IsIntegerFactorization G x)) m → l ≡ m }
    ensures deltas { (G : List ℕ) (x : ℤ) (l m : List ℕ) → Lists (IsDelta (IsIntegerFactorization G x)) l → Lists (IsDelta (IsIntegerFactorization G x)) m → l ≡ m }
    ensures catenary { (G : List ℕ) (x : ℤ) (c d : ℕ) → IsCatenaryOf (IsIntegerFactorization G x) c → IsCatenaryOf (IsIntegerFactorization G x) d → c ≡ d }
    ensures omega { (G : List ℕ) (n M N : ℕ) → IsOmega G n M → IsOmega G n N → M ≡ N }
{}

/// A list of generators has one elasticity, one list of Betti elements and one of canonical relations, one catenary degree,
/// one least and one greatest delta and one omega primality at most.
pub fn semigroups_have_one_answer()
    ensures elasticity { (G : List ℕ) (p q s t : ℕ) → IsElasticity G p q → IsElasticity G s t → (p ≡ s) × (q ≡ t) }
    ensures betti_elements { (G l m : List ℕ) → Lists (λ n. HasTwoClasses (IsFactorization G n)) l → Lists (λ n. HasTwoClasses (IsFactorization G n)) m → l ≡ m }
    ensures relations { (G : List ℕ) (P Q : List (Relation ℕ)) → IsCanonical (◌<◌) (IsFactorization G) P → IsCanonical (◌<◌) (IsFactorization G) Q → P ≡ Q }
    ensures catenary { (G : List ℕ) (c d : ℕ) → IsCatenary (IsFactorization G) c → IsCatenary (IsFactorization G) d → c ≡ d }
    ensures least_delta { (G : List ℕ) (r s : Option ℕ) → IsMinDelta (IsFactorization G) r → IsMinDelta (IsFactorization G) s → r ≡ s }
    ensures greatest_delta { (G : List ℕ) (r s : Option ℕ) → IsMaxDelta (IsFactorization G) r → IsMaxDelta (IsFactorization G) s → r ≡ s }
    ensures omega { (G : List ℕ) (M N : ℕ) → IsOmegaOfSemigroup G M → IsOmegaOfSemigroup G N → M ≡ N }
{}
