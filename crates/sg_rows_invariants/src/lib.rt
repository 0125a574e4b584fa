//! The rows of the commands that tell facts of a numerical semigroup: its numbers and lists.
//!
//! A semigroup is seen as its minimal list. `specs/Facts` has the names and the rows, each by its definition over all
//! integers. The layer above uses: `named` and `takes` are the table of names; each kind of fact tells its row's value or
//! its first refusal (`Tells`).
#![tactic(auto)]

mod fact;
mod gap_lists;
mod modulo;

pub use fact::{BothFact, Fact, GeneratorsFact, NumbersFact, TableFact, named, takes};
pub use modulo::AperyModulo;
