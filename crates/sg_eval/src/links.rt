//! The operators of chains and comparisons.

ghost use Rattle.std.specs.Prelude.{◌≡◌, slice_get};
ghost use Rattle.sg_value.specs.Known.{named};
ghost use Rattle.sg_value.specs.Plain.{plain, AllKnown};
ghost use Rattle.sg_meaning.specs.Expressions.{relation, decided};
ghost use Rattle.sg_meaning.specs.Process.{gives};
ghost use Rattle.sg_eval.specs.Linked.{ends_chain, arithmetic};
ghost use Rattle.sg_eval.specs.State.{State};
ghost use Rattle.sg_eval.specs.Truths.{itself, no_semigroup};
ghost use Rattle.sg_eval.specs.Outcomes.{Evaluates};

use crate::answers::decide;
use sg_calls::{CallFault, Operator};
use sg_tree::{Op, Rel};
use sg_value::Value;

/// The operator that compares so.
pub fn relation_of(rel: Rel) -> Operator
    ensures { result ≡ relation rel }
{
    match rel {
        Rel::Eq => Operator::Eq,
        Rel::Ne => Operator::Ne,
        Rel::Lt => Operator::Lt,
        Rel::Le => Operator::Le,
        Rel::Gt => Operator::Gt,
        Rel::Ge => Operator::Ge,
        Rel::Member => Operator::Member,
    }
}

/// The operator on integers, or none for `or` and `and`.
pub fn operator_of(op: Op) -> Option<Operator>
    ensures { result ≡ arithmetic op }
{
    match op {
        Op::Or | Op::And => None,
        Op::Plus => Some(Operator::Plus),
        Op::Less => Some(Operator::Less),
        Op::Times => Some(Operator::Times),
        Op::Mod => Some(Operator::Mod),
    }
}

/// Whether the value before an operator ends the chain.
pub fn ends_chain(op: Op, left: &Value) -> Result<bool, CallFault>
    ensures { (s : State) → Evaluates itself no_semigroup result s s (λ names. ends_chain op (plain names left.now)) }
{
    match op {
        Op::Or => decide(left),
        Op::And => Ok(!decide(left)?),
        Op::Plus | Op::Less | Op::Times | Op::Mod => Ok(false),
    }
}

/// The value, which has to be a truth value.
pub fn truth_itself(v: Value) -> Result<Value, CallFault>
    ensures { (s : State) → AllKnown (named s.names) v → Evaluates plain AllKnown result s s (λ names. decided (plain names v) (λ b. gives (plain names v))) }
{
    decide(&v)?;
    Ok(v)
}
