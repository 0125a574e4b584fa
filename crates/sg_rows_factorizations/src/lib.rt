//! The rows of the commands on factorizations of the elements of a numerical semigroup: the factorizations themselves,
//! their lengths and deltas, the elasticity, the catenary degree of an element, and omega primality.
//!
//! A semigroup is seen as its minimal list. `specs/Elements` has the rows, each by its definition over all factorizations
//! of the element, and `specs/Commands` the names. The layer above uses: `named` and `takes` are the table of names;
//! each kind of command tells its row's value or its first refusal (`Tells`). Terms are those of Geroldinger and
//! Halter-Koch, Non-Unique Factorizations (2006).
#![tactic(auto)]

mod all_lengths;
mod command;
mod counted;
mod element;
mod measured;
mod omega;

pub use all_lengths::AllLengths;
pub use command::{FactorizationCommand, named, takes};
pub use element::ElementFact;
pub use omega::OmegaOfSemigroup;
