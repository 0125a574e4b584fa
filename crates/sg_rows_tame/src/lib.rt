//! The row of the command on the tame degree of a numerical semigroup.
//!
//! A semigroup is seen as its minimal list. `specs/Rows` has the row, by the definition over all factorizations of all
//! elements, and `specs/Commands` the name. It is told the table first, by which it refuses, and where it does not what is
//! known of the tame degree, which is asked for only then. The layer above uses: `named` and `takes` are the table of
//! names; `check` tells the refusal of a semigroup that is too large (`Checked`), and `tell` the value, or that there are
//! too many factorizations (`Tells`). Terms are those of Geroldinger and Halter-Koch, Non-Unique Factorizations (2006).
#![tactic(auto)]

mod command;
mod row;

pub use command::{TameCommand, named, takes};
pub use row::{check, tell};
