//! The machine that does what statements say.
//!
//! What they say is in `sg_meaning`: a process, which runs over variables with plain values, within a budget of steps. The
//! machine keeps a store, the variables, the parameters of arrows and the budget; contracts see it as its state: what the
//! store knows and which attributes it keeps, the variables and the parameters, all plain, and the budget.
//!
//! The layer above uses `Machine::step`: a statement ends as its process ends, with the same variables and the same
//! text in the sink, and the store was asked for what the process asks for; or, where the sink failed or memory ran out,
//! it was left at some point of its process. `Machine::counts` tells how often attributes were asked for and made.
#![tactic(auto)]

mod answers;
mod eval;
mod exec;
mod folding;
mod given;
mod growth;
mod integers;
mod kinds;
mod links;
mod machine;
mod sequence;
mod signs;
mod step;
mod step_fault;
mod variable;
mod variables;

pub use machine::Machine;
pub use sg_rows::Fault;
pub use step_fault::{Flow, StepFault};
