//! The definitions of non-unique factorization, for clauses to cite: they know all factorizations of every element of a
//! numerical or an affine semigroup, and no algorithm.
//!
//! `specs/` has one module a topic: `Walks`, `Places` (one number of a vector changed), `Counts`, `Factorizations`,
//! `Deltas`, `Elasticity`, `Classes`, `Presentations`, `Catenary`, `Omega`, `Affine`, `Equations` (solutions, and how
//! they grow from unit vectors) and `Costs` (the sets that a budget counts). `proofs/` has the lemmas on walks, on places and sums
//! of vectors, and on their order.
//!
//! Most speak of a set V of vectors, or of a family F that gives the factorizations F n of each element n: it is
//! `IsFactorization G` for numbers and `IsVectorFactorization d A` for vectors. Terms are those of Rosales and
//! Garcia-Sanchez, Numerical Semigroups (2009), and of Geroldinger and Halter-Koch, Non-Unique Factorizations (2006).
#![tactic(auto)]
