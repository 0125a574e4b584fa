//! Affine semigroups, linear equations and their atoms: the semigroup of the vectors [2] and [3].
ghost use Rattle.std.specs.Prelude.{◌≡◌, [], ◌∷◌, pos, negsuc, Some, None};
ghost use Rattle.sg_defs.specs.Vectors.{ListsAscending, ListsDescending};
ghost use Rattle.sg_nonunique.specs.Affine.{as_naturals, vector_value_of, IsIntegerVectorMember, IsMinimalAffine, IsVectorFactorization, IsVectorMember};
ghost use Rattle.sg_nonunique.specs.Classes.{HasTwoClasses};
ghost use Rattle.sg_nonunique.specs.Equations.{pair_columns, IsAtom, IsGrown, IsSolution};

/// Values, and integers as naturals.
pub fn values()
    ensures value { vector_value_of 2 ((1 ∷ 0 ∷ []) ∷ (1 ∷ 2 ∷ []) ∷ []) (3 ∷ 2 ∷ []) ≡ 5 ∷ 4 ∷ [] }
    ensures naturals { as_naturals (pos 3 ∷ pos 0 ∷ []) ≡ Some (3 ∷ 0 ∷ []) }
    ensures negative { as_naturals (pos 3 ∷ negsuc 0 ∷ []) ≡ None }
{}

/// [6] = 3·[2] = 2·[3], in two classes. [1] and [-2] are no members.
pub fn factorizations()
    ensures six { ListsDescending (IsVectorFactorization 1 ((2 ∷ []) ∷ (3 ∷ []) ∷ []) (6 ∷ [])) ((3 ∷ 0 ∷ []) ∷ (0 ∷ 2 ∷ []) ∷ []) }
    ensures classes { HasTwoClasses (IsVectorFactorization 1 ((2 ∷ []) ∷ (3 ∷ []) ∷ []) (6 ∷ [])) }
    ensures one { IsVectorMember 1 ((2 ∷ []) ∷ (3 ∷ []) ∷ []) (1 ∷ []) → ⊥ }
    ensures negative { IsIntegerVectorMember 1 ((2 ∷ []) ∷ (3 ∷ []) ∷ []) (negsuc 1 ∷ []) → ⊥ }
{}

/// [2] and [3] are a minimal list, and [2], [3], [5] are not.
pub fn minimal_lists()
    ensures minimal { IsMinimalAffine 1 ((2 ∷ []) ∷ (3 ∷ []) ∷ []) }
    ensures spare { IsMinimalAffine 1 ((2 ∷ []) ∷ (3 ∷ []) ∷ (5 ∷ []) ∷ []) → ⊥ }
{}

/// 3·[2] = 2·[3] as a pair is an atom of the solutions. Twice a unit pair, taken with another such, is a solution and no
/// atom.
pub fn atoms()
    ensures atom { IsAtom 1 (pair_columns ((2 ∷ []) ∷ (3 ∷ []) ∷ [])) (3 ∷ 0 ∷ 0 ∷ 2 ∷ []) }
    ensures solution { IsSolution 1 (pair_columns ((2 ∷ []) ∷ (3 ∷ []) ∷ [])) (1 ∷ 1 ∷ 1 ∷ 1 ∷ []) }
    ensures no_atom { IsAtom 1 (pair_columns ((2 ∷ []) ∷ (3 ∷ []) ∷ [])) (1 ∷ 1 ∷ 1 ∷ 1 ∷ []) → ⊥ }
{}

/// All fourteen pairs that grow from unit vectors.
pub fn grown_pairs()
    ensures { ListsAscending (IsGrown 1 (pair_columns ((2 ∷ []) ∷ (3 ∷ []) ∷ [])))
        ((0 ∷ 0 ∷ 0 ∷ 1 ∷ []) ∷ (0 ∷ 0 ∷ 1 ∷ 0 ∷ []) ∷ (0 ∷ 1 ∷ 0 ∷ 0 ∷ []) ∷ (0 ∷ 1 ∷ 0 ∷ 1 ∷ [])
        ∷ (0 ∷ 1 ∷ 1 ∷ 0 ∷ []) ∷ (0 ∷ 1 ∷ 2 ∷ 0 ∷ []) ∷ (0 ∷ 2 ∷ 2 ∷ 0 ∷ []) ∷ (0 ∷ 2 ∷ 3 ∷ 0 ∷ [])
        ∷ (1 ∷ 0 ∷ 0 ∷ 0 ∷ []) ∷ (1 ∷ 0 ∷ 0 ∷ 1 ∷ []) ∷ (1 ∷ 0 ∷ 1 ∷ 0 ∷ []) ∷ (2 ∷ 0 ∷ 0 ∷ 1 ∷ [])
        ∷ (2 ∷ 0 ∷ 0 ∷ 2 ∷ []) ∷ (3 ∷ 0 ∷ 0 ∷ 2 ∷ []) ∷ []) }
{}
