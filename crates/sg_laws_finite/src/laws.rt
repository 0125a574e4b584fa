//! Laws over the definitions, each the contract of a function that does nothing.

ghost use Rattle.std.specs.Prelude.{◌≡◌, ◌≢◌, ◌<◌, ◌≤◌, ◌↔◌, ◌⊎◌, ℕ, ℤ, List, length, replicate, All};
ghost use Rattle.sg_defs.specs.Membership.{IsFactorization};
ghost use Rattle.sg_defs.specs.Vectors.{ListsDescending};
ghost use Rattle.sg_nonunique.specs.Catenary.{IsCatenaryOf};
ghost use Rattle.sg_nonunique.specs.Classes.{IsSameClass};
ghost use Rattle.sg_nonunique.specs.Costs.{IsPartial};
ghost use Rattle.sg_nonunique.specs.Counts.{Exceeds};
ghost use Rattle.sg_nonunique.specs.Factorizations.{AreFactorizations};
ghost use Rattle.sg_laws_finite.specs.Listing.{all_factorizations, all_partial};

/// The listing by first places has all factorizations by positive numbers, in descending order.
pub fn factorizations_are_listed()
    ensures { (G : List ℕ) (n : ℕ) → All (λ g. 1 ≤ g) G → ListsDescending (IsFactorization G n) (all_factorizations G n) }
{}

/// So has that of all vectors whose value by nonzero vectors of dimension d is at most v.
pub fn partial_vectors_are_listed()
    ensures { (d : ℕ) (A : List (List ℕ)) (v : List ℕ) → All (λ a. length a ≡ d) A → All (λ a. a ≢ replicate d 0) A →
        length v ≡ d → ListsDescending (IsPartial d A v) (all_partial A v) }
{}

/// An integer has one descending list of its factorizations at most.
pub fn one_list_of_factorizations()
    ensures { (G : List ℕ) (x : ℤ) (l m : List (List ℕ)) → AreFactorizations G x l → AreFactorizations G x m → l ≡ m }
{}

/// There are more than b factorizations exactly where their list is longer than b.
pub fn factorizations_are_counted()
    ensures { (G : List ℕ) (n b : ℕ) (l : List (List ℕ)) → ListsDescending (IsFactorization G n) l →
        Exceeds (IsFactorization G n) b ↔ (b < length l) }
{}

/// Of any two vectors it is decided whether they are in one class of the factorizations of a number.
pub fn classes_are_decided()
    ensures { (G : List ℕ) (n : ℕ) (x y : List ℕ) → All (λ g. 1 ≤ g) G →
        IsSameClass (IsFactorization G n) x y ⊎ ¬ IsSameClass (IsFactorization G n) x y }
{}

/// The factorizations of each number have a catenary degree.
pub fn the_catenary_degree_of_an_element_exists()
    ensures { (G : List ℕ) (n : ℕ) → All (λ g. 1 ≤ g) G → (c : ℕ) × IsCatenaryOf (IsFactorization G n) c }
{}
