//! Statements.

use crate::expr::Expr;
use sg_nat::Bytes;

/// The arms of a choice: each condition with the block that it guards.
pub type Arms = Vec<(Expr, Vec<Stmt>)>;

/// Statements one after the other, none of them `Quit`.
pub type Block = Vec<Stmt>;

/// A statement.
#[derive(Drop)]
pub enum Stmt {
    Empty,
    Quit,
    /// The variable gets the value.
    Assign(Bytes, Expr),
    /// The arms, and the block where no arm is taken: it is empty where there is no `else`.
    If(Arms, Block),
    /// The variable, the list that it goes over, and the block for each entry.
    For(Bytes, Expr, Block),
    /// The value is computed and dropped.
    Do(Expr),
}
