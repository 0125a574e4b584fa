//! The definitions of the theory of numerical semigroups, for clauses to cite: they know membership of every
//! integer and every factorization of every element, and no algorithm.
//!
//! `specs/` has one module a topic: `Vectors`, `Membership` (members, numerical semigroups, minimal lists),
//! `Listings` (a set written out as a list), `Apery`, `Invariants`, `Symmetry`, `Decomposition`, `Closures` and
//! `Ideals`. `proofs/` has the lemmas on values and on sums of members that every crate above needs.
//!
//! A semigroup is seen as a list G of generators, a member as one with a vector of natural coefficients. Terms are
//! those of Rosales and Garcia-Sanchez, Numerical Semigroups (2009).
#![tactic(auto)]
