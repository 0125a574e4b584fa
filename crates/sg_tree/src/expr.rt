//! Expressions.

use sg_nat::Bytes;

/// An operator of a chain.
#[derive(Clone, Copy, PartialEq, Eq, Debug)]
pub enum Op {
    /// `or`
    Or,
    /// `and`
    And,
    /// `+`
    Plus,
    /// `-` between two operands
    Less,
    /// `*`
    Times,
    /// `mod`
    Mod,
}

/// A comparison.
#[derive(Clone, Copy, PartialEq, Eq, Debug)]
pub enum Rel {
    /// `=`
    Eq,
    /// `<>`
    Ne,
    /// `<`
    Lt,
    /// `<=`
    Le,
    /// `>`
    Gt,
    /// `>=`
    Ge,
    /// `in`
    Member,
}

/// The entries of a display, or the indices of an item.
pub type Exprs = Vec<Expr>;

/// The arguments of a call.
pub type Args = Vec<Arg>;

/// The operators of a chain, each with the operand after it.
pub type Links = Vec<(Op, Expr)>;

/// An expression. Parentheses leave no node.
#[cycle(expressions)]
#[derive(Drop)]
pub enum Expr {
    Int(i64),
    Text(Bytes),
    Bool(bool),
    Fail,
    Var(Bytes),
    /// A command and its arguments.
    Call(Bytes, Args),
    /// The list of these entries.
    Display(Exprs),
    /// The list of the integers from the first bound to the second.
    Span(Box<Expr>, Box<Expr>),
    /// An entry of a list, by one index after the other. There is at least one.
    Item(Box<Expr>, Exprs),
    /// So many minus signs before an operand, at least one.
    Minus(u64, Box<Expr>),
    /// The word `not` so many times before an operand, at least once.
    Not(u64, Box<Expr>),
    /// Operands joined from the left by operators of one rank. There is at least one operator.
    Chain(Box<Expr>, Links),
    Compare(Rel, Box<Expr>, Box<Expr>),
}

/// An argument of a call.
#[cycle(expressions)]
#[derive(Drop)]
pub enum Arg {
    Plain(Expr),
    /// A parameter and the expression that it stands in.
    Arrow(Bytes, Expr),
}
