//! Laws over the definitions, each the contract of a function that does nothing.

ghost use Rattle.std.specs.Prelude.{◌≡◌, ◌⊎◌, ◌↔◌, ◌-ℤ◌, ℕ, ℤ, List, length, slice_index};
ghost use Rattle.sg_defs.specs.Closures.{IsMed, IsSaturated, IsSaturatedClosure};
ghost use Rattle.sg_defs.specs.Decomposition.{IsDecomposition, IsIrredundant};
ghost use Rattle.sg_defs.specs.Invariants.{IsFrobenius};
ghost use Rattle.sg_defs.specs.Membership.{IsIntegerMember, IsMinimal, IsNumericalSemigroup};
ghost use Rattle.sg_defs.specs.Symmetry.{IsSymmetric, IsPseudoSymmetric, IsIrreducible, IsReducible};
ghost use Rattle.sg_laws_invariants.specs.Decided.{Decided};

/// Of each numerical semigroup it is decided whether it is symmetric, pseudo-symmetric and irreducible (Rosales and
/// Garcia-Sanchez, chapter 3).
pub fn symmetry_is_decided()
    ensures symmetric { (G : List ℕ) → IsNumericalSemigroup G → Decided (IsSymmetric G) }
    ensures pseudo_symmetric { (G : List ℕ) → IsNumericalSemigroup G → Decided (IsPseudoSymmetric G) }
    ensures irreducible { (G : List ℕ) → IsNumericalSemigroup G → Decided (IsIrreducible G) }
{}

/// What is not of a kind shows it. A numerical semigroup that is not symmetric has an integer such that neither it nor its
/// difference from the Frobenius number is a member; one that is irreducible is symmetric or pseudo-symmetric, and one
/// that is neither is the intersection of two numerical semigroups properly above it (Rosales and Garcia-Sanchez,
/// chapter 3).
pub fn a_semigroup_of_no_kind_shows_it()
    ensures symmetric { (G : List ℕ) (f : ℤ) → IsNumericalSemigroup G → IsFrobenius G f → (IsSymmetric G → ⊥) → (x : ℤ) × (IsIntegerMember G x → ⊥) × (IsIntegerMember G (f -ℤ x) → ⊥) }
    ensures irreducible { (G : List ℕ) → IsNumericalSemigroup G → IsIrreducible G ↔ (IsSymmetric G ⊎ IsPseudoSymmetric G) }
    ensures reducible { (G : List ℕ) → IsNumericalSemigroup G → (IsSymmetric G → ⊥) → (IsPseudoSymmetric G → ⊥) → IsReducible G }
{}

/// A numerical semigroup is of maximal embedding dimension exactly where it has as many minimal generators as its
/// multiplicity says, which is the first of them (Rosales and Garcia-Sanchez, Proposition 3.12).
pub fn maximal_embedding_dimension_is_counted()
    ensures { (G : List ℕ) → IsNumericalSemigroup G → IsMinimal G → IsMed G ↔ (length G ≡ slice_index G 0) }
{}

/// Each numerical semigroup has a decomposition by its special gaps.
pub fn a_decomposition_exists()
    ensures { (G : List ℕ) → IsNumericalSemigroup G → (L : List (List ℕ)) × IsDecomposition G L }
{}

/// A decomposition of a numerical semigroup by its special gaps is of irreducible semigroups that meet in it, and each of
/// them is needed (Rosales and Garcia-Sanchez, on irreducible numerical semigroups). Nothing else is asked, no limit
/// either.
pub fn a_decomposition_is_irredundant()
    ensures { (G : List ℕ) (L : List (List ℕ)) → IsNumericalSemigroup G → IsDecomposition G L → IsIrredundant G L }
{}

/// Of each numerical semigroup it is decided whether it is saturated, and it has a saturated closure.
pub fn a_saturated_closure_exists()
    ensures saturated { (G : List ℕ) → IsNumericalSemigroup G → Decided (IsSaturated G) }
    ensures closure { (G : List ℕ) → IsNumericalSemigroup G → (H : List ℕ) × IsSaturatedClosure G H }
{}
