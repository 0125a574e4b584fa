//! The rows of the commands on the shape of a numerical semigroup: symmetry, decomposition, and closures.
//!
//! A semigroup is seen as its minimal list. `specs/Shapes` has the names and the rows, each by its definition over all
//! integers, all members or all numerical semigroups above. The layer above uses: `named` and `takes` are the table of
//! names; each kind of command tells its row's value or its first refusal (`Tells`).
#![tactic(auto)]

mod closures;
mod shape;
mod tests_within;

pub use shape::{Closure, Decomposition, GeneratorsTest, Shape, TableTest, named, takes};
