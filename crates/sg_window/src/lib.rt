//! A window of a script, which is read piece by piece and cut into statements.
//!
//! A window holds as many bytes as a statement may have, 65,536, reserved once. Contracts see the statement that was found last, what is held
//! behind it, and counts (`specs/Window`). Blanks and comments in front are let go, so that a window may be wanted to
//! hold bytes that it does not hold: `Holds` says of which bytes, behind the last statement, it stands.
//!
//! The layer above uses `next_statement`: over every bytes that the window stands for, its answer is what `sg_cut` says
//! of all of them, with the line; and `fill`, after which it stands for these and what was read. The law
//! `any_cutting` has what follows: however an input is cut into reads, its statements and their lines are the same.
#![tactic(auto)]

mod answers;
mod buffer;
pub mod laws;
#[cfg(test)]
mod tests;
mod window;

pub use answers::{Cut, Filled};
pub use window::Window;
