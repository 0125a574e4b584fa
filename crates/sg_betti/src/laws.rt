//! Laws over the definitions, each the contract of a function that does nothing.

ghost use Rattle.std.specs.Prelude.{◌≡◌, ◌+◌, ◌<◌, ◌≤◌, ℕ, List, All, length, slice_index};
ghost use Rattle.sg_defs.specs.Apery.{IsApery};
ghost use Rattle.sg_defs.specs.Membership.{IsFactorization};
ghost use Rattle.sg_nonunique.specs.Classes.{HasTwoClasses};
ghost use Rattle.sg_nonunique.specs.Presentations.{AreRelations, IsCanonical, IsNoneSpare, Presents, Relation};
ghost use Rattle.sg_laws_families.specs.Candidates.{IsBettiCandidate};

/// Every Betti element is the sum of an Apery element of the first generator and a later generator (Rosales and
/// Garcia-Sanchez, Numerical Semigroups, chapter 7): all factorizations with the first place positive are in one class.
pub fn betti_elements_are_candidates()
    ensures candidate { (G : List ℕ) (n : ℕ) → All (λ g. 1 ≤ g) G → HasTwoClasses (IsFactorization G n) → IsBettiCandidate G n }
    ensures listed { (G t : List ℕ) (n : ℕ) → All (λ g. 1 ≤ g) G → IsApery G (slice_index G 0) t → HasTwoClasses (IsFactorization G n) →
        (i j : ℕ) × (i < length t) × (0 < j) × (j < length G) × (n ≡ slice_index t i + slice_index G j) }
{}

/// The canonical relations join any two factorizations of every element, and none of them can be left out.
pub fn canonical_relations_present()
    ensures relations { (G : List ℕ) (P : List (Relation ℕ)) → All (λ g. 1 ≤ g) G →
        IsCanonical (◌<◌) (IsFactorization G) P → AreRelations (IsFactorization G) P }
    ensures presents { (G : List ℕ) (P : List (Relation ℕ)) → All (λ g. 1 ≤ g) G →
        IsCanonical (◌<◌) (IsFactorization G) P → Presents (IsFactorization G) P }
    ensures none_spare { (G : List ℕ) (P : List (Relation ℕ)) → All (λ g. 1 ≤ g) G →
        IsCanonical (◌<◌) (IsFactorization G) P → IsNoneSpare (IsFactorization G) P }
{}

/// A numerical semigroup has one list of canonical relations at most.
pub fn one_canonical_list()
    ensures { (G : List ℕ) (P Q : List (Relation ℕ)) → IsCanonical (◌<◌) (IsFactorization G) P →
        IsCanonical (◌<◌) (IsFactorization G) Q → P ≡ Q }
{}
