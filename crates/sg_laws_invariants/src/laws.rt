//! Laws over the definitions, each the contract of a function that does nothing.

ghost use Rattle.std.specs.Prelude.{ℕ, List};
ghost use Rattle.sg_defs.specs.Membership.{IsMember, IsNumericalSemigroup, Generates};
ghost use Rattle.sg_classes.specs.Fit.{IsFit};
ghost use Rattle.sg_defs.specs.Closures.{IsArf, IsMed, IsArfClosure, IsMedClosure};
ghost use Rattle.sg_laws_invariants.specs.Decided.{Decided};
ghost use Rattle.sg_laws_invariants.specs.Invariants.{HasInvariants};
ghost use Rattle.sg_laws_invariants.specs.Sets.{AreSetsGenerated};

/// Of each number it is decided whether it is a sum of given generators.
pub fn membership_is_decided()
    ensures { (G : List ℕ) (n : ℕ) → Decided (IsMember G n) }
{}

/// Each numerical semigroup has a minimal list of generators (Rosales and Garcia-Sanchez, Theorem 2.7).
pub fn a_numerical_semigroup_has_a_minimal_list()
    ensures { (G : List ℕ) → IsNumericalSemigroup G → (M : List ℕ) × Generates (IsMember G) M }
{}

/// Of each list it is decided whether it generates a numerical semigroup: only divisors up to its first entry are to
/// be tried.
pub fn numerical_semigroups_are_decided()
    ensures { (G : List ℕ) → Decided (IsNumericalSemigroup G) }
{}

/// Of each list it is decided whether it is within the limits.
pub fn fitting_the_limits_is_decided()
    ensures { (M : List ℕ) → Decided (IsFit M) }
{}

/// Each numerical semigroup has each invariant: the definitions are of something.
pub fn a_numerical_semigroup_has_its_invariants()
    ensures { (G : List ℕ) → IsNumericalSemigroup G → HasInvariants G }
{}

/// Intersections, quotients, and what Apery lists, small elements, gaps and modular inequalities describe are numerical
/// semigroups where their conditions hold, and each condition is decided.
pub fn constructed_sets_are_generated()
    ensures { AreSetsGenerated }
{}

/// Of each numerical semigroup it is decided whether it is Arf, and whether it is of maximal embedding dimension; and it
/// has an Arf closure, and one of maximal embedding dimension.
pub fn closures_exist()
    ensures arf { (G : List ℕ) → IsNumericalSemigroup G → Decided (IsArf G) }
    ensures med { (G : List ℕ) → IsNumericalSemigroup G → Decided (IsMed G) }
    ensures arf_closure { (G : List ℕ) → IsNumericalSemigroup G → (H : List ℕ) × IsArfClosure G H }
    ensures med_closure { (G : List ℕ) → IsNumericalSemigroup G → (H : List ℕ) × IsMedClosure G H }
{}
