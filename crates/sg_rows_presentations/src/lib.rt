//! The rows of the commands on the minimal presentation of a numerical semigroup, and on what comes of it for all elements
//! at once: Betti elements, canonical relations, the catenary degree, the greatest and the least delta.
//!
//! A semigroup is seen as its minimal list. `specs/Rows` has the rows, each by its definition over all factorizations of
//! all elements, and `specs/Commands` the names. A row on the presentation is told the table first, by which it refuses,
//! and where it does not the presentation, which is asked for only then. The layer above uses: `named` and `takes` are the
//! table of names; `PresentationFact::check` tells the refusal (`Checked`), and `tell` the value (`Tells`). Terms are those
//! of Rosales and Garcia-Sanchez, Numerical Semigroups (2009), and Geroldinger and Halter-Koch, Non-Unique Factorizations
//! (2006).
#![tactic(auto)]

mod command;
mod deltas;
mod elements;
mod fact;
mod sides;

pub use command::{PresentationCommand, named, takes};
pub use deltas::LeastDelta;
pub use fact::PresentationFact;
