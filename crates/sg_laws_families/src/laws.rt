//! Laws over the definitions, each the contract of a function that does nothing: of sets of factorizations, and of all
//! elements of an affine semigroup (Geroldinger and Halter-Koch, Non-Unique Factorizations, 1.6 and 3).

ghost use Rattle.std.specs.Prelude.{◌≡◌, ◌≢◌, ◌+◌, ◌<◌, ◌↔◌, ℕ, List, Option, length, slice_index};
ghost use Rattle.sg_defs.specs.Membership.{IsFactorization, IsMember, IsNumericalSemigroup};
ghost use Rattle.sg_defs.specs.Vectors.{IsLexBelow};
ghost use Rattle.sg_nonunique.specs.Affine.{IsAffineSemigroup, IsVectorFactorization};
ghost use Rattle.sg_nonunique.specs.Catenary.{IsCatenary};
ghost use Rattle.sg_nonunique.specs.Classes.{IsSameClass};
ghost use Rattle.sg_nonunique.specs.Deltas.{IsMaxDelta};
ghost use Rattle.sg_nonunique.specs.Presentations.{AreRelations, IsCanonical, IsLexGreatest, IsNoneSpare, Presents, Relation};
ghost use Rattle.sg_laws_families.specs.Bounds.{IsGreatestBettiDelta, IsGreatestLeastLength};
ghost use Rattle.sg_laws_families.specs.PlaceGraph.{AreConnected, IsEdge, IsFirstPlace, IsVertex};

/// Two factorizations are in one class exactly where a positive place of the one is connected with one of the other in
/// the graph of the places that some factorization has both positive. For numbers this graph is that of the members
/// which are left without one generator, or without two.
pub fn classes_are_components()
    ensures numbers { (G : List ℕ) (n : ℕ) (x y : List ℕ) (i j : ℕ) → IsFactorization G n x → IsFactorization G n y →
        0 < slice_index x i → 0 < slice_index y j →
        IsSameClass (IsFactorization G n) x y ↔ AreConnected (IsFactorization G n) i j }
    ensures vectors { (d : ℕ) (A : List (List ℕ)) (v x y : List ℕ) (i j : ℕ) → IsVectorFactorization d A v x →
        IsVectorFactorization d A v y → 0 < slice_index x i → 0 < slice_index y j →
        IsSameClass (IsVectorFactorization d A v) x y ↔ AreConnected (IsVectorFactorization d A v) i j }
    ensures vertices { (G : List ℕ) (n i : ℕ) → i < length G →
        IsVertex (IsFactorization G n) i ↔ ((m : ℕ) × (m + slice_index G i ≡ n) × IsMember G m) }
    ensures edges { (G : List ℕ) (n i j : ℕ) → i < length G → j < length G → i ≢ j →
        IsEdge (IsFactorization G n) i j ↔ ((m : ℕ) × (m + slice_index G i + slice_index G j ≡ n) × IsMember G m) }
{}

/// Of two classes of an element, that which has the lesser first positive place has the greater greatest vector.
pub fn classes_descend_by_first_places()
    ensures numbers { (G : List ℕ) (n : ℕ) (x y a b : List ℕ) (i j : ℕ) →
        IsFirstPlace (IsFactorization G n) x i → IsFirstPlace (IsFactorization G n) y j → i < j →
        IsLexGreatest (λ z. IsSameClass (IsFactorization G n) x z) a →
        IsLexGreatest (λ z. IsSameClass (IsFactorization G n) y z) b → IsLexBelow b a }
    ensures vectors { (d : ℕ) (A : List (List ℕ)) (v x y a b : List ℕ) (i j : ℕ) →
        IsFirstPlace (IsVectorFactorization d A v) x i → IsFirstPlace (IsVectorFactorization d A v) y j → i < j →
        IsLexGreatest (λ z. IsSameClass (IsVectorFactorization d A v) x z) a →
        IsLexGreatest (λ z. IsSameClass (IsVectorFactorization d A v) y z) b → IsLexBelow b a }
{}

/// The canonical relations of an affine semigroup join any two factorizations of every vector, and none of them can be
/// left out.
pub fn affine_canonical_relations_present()
    ensures relations { (d : ℕ) (A : List (List ℕ)) (P : List (Relation (List ℕ))) → IsAffineSemigroup d A →
        IsCanonical IsLexBelow (IsVectorFactorization d A) P → AreRelations (IsVectorFactorization d A) P }
    ensures presents { (d : ℕ) (A : List (List ℕ)) (P : List (Relation (List ℕ))) → IsAffineSemigroup d A →
        IsCanonical IsLexBelow (IsVectorFactorization d A) P → Presents (IsVectorFactorization d A) P }
    ensures none_spare { (d : ℕ) (A : List (List ℕ)) (P : List (Relation (List ℕ))) → IsAffineSemigroup d A →
        IsCanonical IsLexBelow (IsVectorFactorization d A) P → IsNoneSpare (IsVectorFactorization d A) P }
{}

/// The catenary degree of an affine semigroup, over every vector, is the greatest, over vectors with two classes and
/// over their classes, of the least length in the class.
pub fn affine_catenary_degrees_come_from_classes()
    ensures { (d : ℕ) (A : List (List ℕ)) (N : ℕ) → IsAffineSemigroup d A →
        IsGreatestLeastLength (IsVectorFactorization d A) N → IsCatenary (IsVectorFactorization d A) N }
{}

/// The greatest delta of an affine semigroup, over every vector, occurs at a vector with two classes.
pub fn affine_greatest_deltas_come_from_classes()
    ensures { (d : ℕ) (A : List (List ℕ)) (r : Option ℕ) → IsAffineSemigroup d A →
        IsGreatestBettiDelta (IsVectorFactorization d A) r → IsMaxDelta (IsVectorFactorization d A) r }
{}
