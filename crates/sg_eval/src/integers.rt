//! Integers and truth values that are there at once: of numbers, of names, and of chains and comparisons of these.
//!
//! Most steps of a loop are such, and take no call of the evaluator of all forms. Where there is nothing at once, for
//! whatever reason, that evaluator is asked; these functions change nothing, so nothing is done twice.

ghost use Rattle.std.specs.Prelude.{IfSome, slice_get};
ghost use Rattle.sg_tree.specs.TreeView.{tree_of, links_of};
ghost use Rattle.sg_tree.specs.Tree.{chain as chain_tree};
ghost use Rattle.sg_eval.specs.AtOnce.{GivesInteger, GivesTruth, Calculates, Compares};
ghost use Rattle.sg_meaning.specs.Expressions.{eval as meaning};
ghost use Rattle.sg_eval.specs.Machine.{state_of};

use crate::links::operator_of;
use crate::machine::Machine;
use sg_calls::calculate;
use sg_tree::{Expr, Op, Rel};
use sg_value::Value;

/// The integer that an operand is, where it is a number or the name of an integer.
#[inline(always)]
fn operand(machine: &Machine, e: &Expr) -> Option<i64>
    ensures { IfSome result (GivesInteger (state_of machine.now) (λ names. meaning (state_of machine.now).parameters (tree_of e.now))) }
{
    match e {
        Expr::Int(z) => Some(*z),
        Expr::Var(name) => machine.integer_named(name.as_slice()),
        _ => None,
    }
}

/// What an operator of a chain gives of two integers, where that is an integer.
#[inline(always)]
fn calculated(op: Op, x: i64, y: i64) -> Option<i64>
    ensures { IfSome result (Calculates op x y) }
{
    match calculate(operator_of(op)?, x, y) {
        Ok(Value::Int(z)) => Some(z),
        _ => None,
    }
}

/// The integer that a chain of such operands gives.
#[inline(always)]
fn chained(machine: &Machine, first: &Expr, links: &[(Op, Expr)]) -> Option<i64>
    ensures { IfSome result (GivesInteger (state_of machine.now) (λ names. meaning (state_of machine.now).parameters (chain_tree (tree_of first.now) (links_of links.now)))) }
{
    let mut value = operand(machine, first)?;
    for (op, e) in links {
        value = calculated(*op, value, operand(machine, e)?)?;
    }
    Some(value)
}

/// The integer that such an operand, or a chain of them, gives.
pub fn integer(machine: &Machine, e: &Expr) -> Option<i64>
    ensures { IfSome result (GivesInteger (state_of machine.now) (λ names. meaning (state_of machine.now).parameters (tree_of e.now))) }
{
    match e {
        Expr::Chain(first, links) => chained(machine, first, links),
        _ => operand(machine, e),
    }
}

/// How two integers compare, or none for `in`.
#[inline(always)]
fn comparison(relation: Rel, x: i64, y: i64) -> Option<bool>
    ensures { IfSome result (Compares relation x y) }
{
    match relation {
        Rel::Eq => Some(x == y),
        Rel::Ne => Some(x != y),
        Rel::Lt => Some(x < y),
        Rel::Le => Some(x <= y),
        Rel::Gt => Some(x > y),
        Rel::Ge => Some(x >= y),
        Rel::Member => None,
    }
}

/// Whether two such integers compare so.
pub fn truth(machine: &Machine, e: &Expr) -> Option<bool>
    ensures { IfSome result (GivesTruth (state_of machine.now) (λ names. meaning (state_of machine.now).parameters (tree_of e.now))) }
{
    match e {
        Expr::Compare(relation, left, right) => {
            let x = integer(machine, left)?;
            let y = integer(machine, right)?;
            comparison(*relation, x, y)
        }
        _ => None,
    }
}
