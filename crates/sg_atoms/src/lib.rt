//! The minimal solutions of linear equations over the naturals, by a search under a budget.
//!
//! A matrix is the list of its columns; contracts see `Columns` as that list, and a vector as a list of naturals. The
//! definitions are those of `sg_nonunique` (`Equations`): a solution is a vector that the matrix sends to zero, an atom a
//! nonzero one with no other below it, and the grown vectors are those that a search from the unit vectors passes through.
//!
//! The laws: atoms are the grown solutions, and what grows from the vectors of one length is told by the atoms up to that
//! length (`specs/Levels`; Contejean and Devie, 1994). The parts of the search: whether a vector is a solution, by the
//! inner products of the columns (`equations`), the level after one, which is told whole or is too large for the room
//! that is left (`search`), and the loop over the levels up to an empty one (`solutions`).
#![tactic(auto)]

mod ascending;
mod columns;
mod equations;
mod fault;
pub mod laws;
mod level;
mod products;
mod search;
mod solutions;
mod units;

pub use columns::Columns;
pub use fault::SearchFault;
pub use solutions::least_solutions;
