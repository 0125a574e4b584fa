//! The trees of the script language: what a statement is once its text was read.
//!
//! Contracts see an `Expr` as a `Tree` and a `Stmt` as a `Code`: plain data with a list in the place of each `Vec`, which
//! know neither capacity nor allocator. A tree that a text can have is well formed (`IsWellFormed` for an expression,
//! `IsWellFormedCode` for a statement): the reader promises it, and whatever walks a tree may rely on it.
#![tactic(auto)]

mod expr;
mod stmt;

pub use expr::{Arg, Args, Expr, Exprs, Links, Op, Rel};
pub use stmt::{Arms, Block, Stmt};
