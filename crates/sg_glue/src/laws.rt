//! Laws over the definitions, each the contract of a function that does nothing.

ghost use Rattle.std.specs.Prelude.{◌≡◌, ◌⊎◌, ℕ, List};
ghost use Rattle.std.specs.List.Sorted.{IsStrictlyIncreasing};
ghost use Rattle.sg_defs.specs.Membership.{IsFactorization, IsNumericalSemigroup};
ghost use Rattle.sg_defs.specs.Vectors.{scale};
ghost use Rattle.sg_nonunique.specs.Presentations.{AreRelations, Presents, Relation};
ghost use Rattle.sg_glue.specs.Glued.{IsGlued};
ghost use Rattle.sg_glue.specs.Gluings.{AreGluings, IsGluing, Split};

/// Each numerical semigroup has a list of its gluings, and one alone: the definition determines it.
pub fn the_gluings_have_one_list()
    ensures exists { (G : List ℕ) → IsNumericalSemigroup G → IsStrictlyIncreasing G → (list : List Split) × AreGluings G list }
    ensures one { (G : List ℕ) (a b : List Split) → AreGluings G a → AreGluings G b → a ≡ b }
{}

/// Presentations of the two parts of a gluing, each part divided by its greatest common divisor, with one relation
/// between the parts more, join any two factorizations of every element (Rosales and Garcia-Sanchez, Numerical
/// Semigroups, 2009, chapter 8).
pub fn glued_presentations_present()
    ensures { (G : List ℕ) (s : Split) (A B : List ℕ) (p q P : List (Relation ℕ)) → IsNumericalSemigroup G → IsStrictlyIncreasing G →
        IsGluing G s → scale s.d_left A ≡ s.left → scale s.d_right B ≡ s.right →
        AreRelations (IsFactorization A) p → Presents (IsFactorization A) p →
        AreRelations (IsFactorization B) q → Presents (IsFactorization B) q →
        IsGlued G s p q P → Presents (IsFactorization G) P }
{}

/// Each part of a gluing, divided by its greatest common divisor, generates a numerical semigroup.
pub fn divided_parts_are_semigroups()
    ensures { (G : List ℕ) (s : Split) (A : List ℕ) → IsNumericalSemigroup G → IsGluing G s →
        ((scale s.d_left A ≡ s.left) ⊎ (scale s.d_right A ≡ s.right)) → IsNumericalSemigroup A }
{}
