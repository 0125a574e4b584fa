//! Signs and the word `not` before an operand.

ghost use Rattle.std.specs.Prelude.{◌≡◌, slice_get};
ghost use Rattle.sg_value.specs.Known.{named};
ghost use Rattle.sg_value.specs.Data.{truth};
ghost use Rattle.sg_value.specs.Plain.{plain, AllKnown};
ghost use Rattle.sg_meaning.specs.Expressions.{negated, turned, decided};
ghost use Rattle.sg_meaning.specs.Process.{gives};
ghost use Rattle.sg_eval.specs.State.{State};
ghost use Rattle.sg_eval.specs.Outcomes.{Evaluates};

use crate::answers::{decide, other_sign};
use sg_calls::CallFault;
use sg_value::Value;

/// The value after so many minus signs.
pub fn negated(count: u64, v: Value) -> Result<Value, CallFault>
    ensures { (s : State) → AllKnown (named s.names) v → Evaluates plain AllKnown result s s (λ names. negated count (plain names v)) }
{
    let mut value = v;
    for i in 0..count {
        value = other_sign(&value)?;
    }
    Ok(value)
}

/// The truth value after so many words `not`.
fn turn(count: u64, b: bool) -> bool
    ensures { result ≡ turned count b }
{
    if count % 2 == 0 { b } else { !b }
}

/// The truth value after so many words `not`, or that it is none.
pub fn turned(count: u64, v: &Value) -> Result<Value, CallFault>
    ensures { (s : State) → Evaluates plain AllKnown result s s (λ names. decided (plain names v.now) (λ b. gives (truth (turned count b)))) }
{
    Ok(Value::Bool(turn(count, decide(v)?)))
}
