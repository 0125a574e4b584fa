//! Laws over the definitions, each the contract of a function that does nothing.

ghost use Rattle.std.specs.Prelude.{◌≡◌, ◌≢◌, ◌+◌, ◌<◌, ◌≤◌, ◌↔◌, ℕ, ℤ, List, length, replicate, sum};
ghost use Rattle.sg_defs.specs.Vectors.{IsBelow};
ghost use Rattle.sg_nonunique.specs.Equations.{AreColumns, GrowsTo, IsAtom, IsGrown, IsSolution};
ghost use Rattle.sg_nonunique.specs.Places.{unit};
ghost use Rattle.sg_atoms.specs.Levels.{IsClear, IsOnLevel, Raises};

/// Each atom is grown, and each grown solution is an atom (Contejean and Devie, An efficient incremental algorithm for
/// solving systems of linear Diophantine equations, 1994).
pub fn atoms_are_the_grown_solutions()
    ensures grown { (r : ℕ) (columns : List (List ℤ)) (p : List ℕ) → AreColumns r columns → IsAtom r columns p → IsGrown r columns p }
    ensures atoms { (r : ℕ) (columns : List (List ℤ)) (p : List ℕ) → IsGrown r columns p → IsSolution r columns p → IsAtom r columns p }
{}

/// Below each nonzero solution lies an atom.
pub fn an_atom_lies_below_each_solution()
    ensures { (r : ℕ) (columns : List (List ℤ)) (p : List ℕ) → IsSolution r columns p → p ≢ replicate (length columns) 0 →
        (a : List ℕ) × IsAtom r columns a × IsBelow a p }
{}

/// The first level has the unit vectors, and each other one what the level before it grows to. Where a level is empty, all
/// grown vectors are shorter.
pub fn grown_vectors_lie_on_levels()
    ensures first { (r : ℕ) (columns : List (List ℤ)) (p : List ℕ) →
        IsOnLevel r columns 1 p ↔ ((j : ℕ) × (j < length columns) × (unit (length columns) j ≡ p)) }
    ensures next { (r : ℕ) (columns : List (List ℤ)) (l : ℕ) → 0 < l → (q : List ℕ) →
        IsOnLevel r columns (l + 1) q ↔ ((p : List ℕ) × IsOnLevel r columns l p × GrowsTo r columns p q) }
    ensures last { (r : ℕ) (columns : List (List ℤ)) (l : ℕ) → 0 < l → ((p : List ℕ) → IsOnLevel r columns l p → ⊥) →
        (q : List ℕ) → IsGrown r columns q → sum q < l }
{}

/// What a vector grows to is told by the atoms up to its length: it is the vector with one more at a place, where the
/// product of the images is negative and none of these atoms lies below it.
pub fn shorter_atoms_tell_what_grows()
    ensures { (r : ℕ) (columns : List (List ℤ)) (p q : List ℕ) → IsGrown r columns p →
        GrowsTo r columns p q ↔ (((i : ℕ) × Raises r columns p q i) × IsClear r columns (sum p + 1) q) }
{}
