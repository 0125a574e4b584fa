//! Presentations and canonical relations.
ghost use Rattle.std.specs.Prelude.{[], ◌∷◌, ◌<◌};
ghost use Rattle.sg_defs.specs.Membership.{IsFactorization};
ghost use Rattle.sg_nonunique.specs.Presentations.{AreRelations, IsCanonical, IsCanonicalRelation, IsNoneSpare, Presents, Relation};
ghost use Rattle.sg_nonunique_samples.specs.Relations.{relation};

/// 3·2 = 2·3 is the one canonical relation of <2, 3>. It joins any two factorizations of each element; nothing does
/// without it, and it is spare where it stands twice. N has none and needs none.
pub fn presentations()
    ensures relations { AreRelations (IsFactorization (2 ∷ 3 ∷ [])) (relation 6 (3 ∷ 0 ∷ []) (0 ∷ 2 ∷ []) ∷ []) }
    ensures canonical { IsCanonical (◌<◌) (IsFactorization (2 ∷ 3 ∷ [])) (relation 6 (3 ∷ 0 ∷ []) (0 ∷ 2 ∷ []) ∷ []) }
    ensures presents { Presents (IsFactorization (2 ∷ 3 ∷ [])) (relation 6 (3 ∷ 0 ∷ []) (0 ∷ 2 ∷ []) ∷ []) }
    ensures none_does_not { Presents (IsFactorization (2 ∷ 3 ∷ [])) [] → ⊥ }
    ensures needed { IsNoneSpare (IsFactorization (2 ∷ 3 ∷ [])) (relation 6 (3 ∷ 0 ∷ []) (0 ∷ 2 ∷ []) ∷ []) }
    ensures spare { IsNoneSpare (IsFactorization (2 ∷ 3 ∷ [])) (relation 6 (3 ∷ 0 ∷ []) (0 ∷ 2 ∷ []) ∷ relation 6 (3 ∷ 0 ∷ []) (0 ∷ 2 ∷ []) ∷ []) → ⊥ }
    ensures naturals { IsCanonical (◌<◌) (IsFactorization (1 ∷ [])) [] }
{}

/// At 30 in <6, 10, 15> the greatest factorization is paired with each of the two others, and these not with one another.
pub fn canonical_relations()
    ensures second { IsCanonicalRelation (IsFactorization (6 ∷ 10 ∷ 15 ∷ [])) (relation 30 (5 ∷ 0 ∷ 0 ∷ []) (0 ∷ 3 ∷ 0 ∷ [])) }
    ensures third { IsCanonicalRelation (IsFactorization (6 ∷ 10 ∷ 15 ∷ [])) (relation 30 (5 ∷ 0 ∷ 0 ∷ []) (0 ∷ 0 ∷ 2 ∷ [])) }
    ensures no_other { IsCanonicalRelation (IsFactorization (6 ∷ 10 ∷ 15 ∷ [])) (relation 30 (0 ∷ 3 ∷ 0 ∷ []) (0 ∷ 0 ∷ 2 ∷ [])) → ⊥ }
{}
