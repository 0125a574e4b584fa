//! What a script can make: numerical semigroups and relative ideals that are within the limits, for clauses to cite.
//!
//! A semigroup is seen as its minimal list, an ideal as that of its ambient semigroup and its own. The one contract that
//! the layers above use is `specs/Lawful`: `IsLawfulList` and `IsLawfulIdeal`. `specs/Generators` has the limit of an
//! ideal's generators as a fact, `specs/Spans` that of the span up to which members, gaps and covers are listed. No
//! algorithm stands here, so that what keeps or names such things need not stand on what makes them.
#![tactic(auto)]

mod limits;

pub use limits::IDEAL_GENERATOR_LIMIT;
