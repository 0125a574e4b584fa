//! The commands whose second argument is an arrow.

ghost use Rattle.std.specs.Prelude.{◌≡◌, OnOk, IfOk, slice_get};
ghost use Rattle.sg_value.specs.Known.{named};
ghost use Rattle.sg_value.specs.Plain.{AllKnown, AllKnownIn, contents, contents_of_all, plain, plain_of_all};
ghost use Rattle.sg_value.specs.Data.{join};
ghost use Rattle.sg_eval.specs.Folded.{goes_on, gathered_at, finished, is_true, listed_if};
ghost use Rattle.sg_eval.specs.Given.{plain_if, known_if};
ghost use Rattle.sg_meaning.specs.Process.{gives};
ghost use Rattle.sg_eval.specs.State.{State};
ghost use Rattle.sg_eval.specs.Truths.{itself, no_semigroup};
ghost use Rattle.sg_eval.specs.Outcomes.{Evaluates, plain_items, known_items};

use crate::answers::{decide, entries, list_of, put};
use sg_calls::{CallFault, Fault, Folding};
use sg_value::{Items, Value, try_clone};
use std::alloc::{AllocError, Global};

/// Whether the value is the truth value `true`.
fn is_true(v: &Value) -> bool
    ensures { result ≡ is_true (contents v.now) }
{
    match v {
        Value::Bool(b) => *b,
        _ => false,
    }
}

/// Whether the entries after one, of which the arrow gave this value, are looked at.
pub fn goes_on(fold: Folding, value: &Value) -> Result<bool, CallFault>
    ensures { (s : State) → Evaluates itself no_semigroup result s s (λ names. goes_on fold (plain names value.now)) }
{
    match fold {
        Folding::EachValue => Ok(true),
        Folding::AllTrue => decide(value),
        Folding::AnyTrue => Ok(!decide(value)?),
        Folding::ThoseTrue | Folding::CountTrue => {
            decide(value)?;
            Ok(true)
        }
    }
}

/// Gathers what an entry brings, of which the arrow gave this value.
pub fn gather(
    alloc: Global,
    fold: Folding,
    entry: &Value,
    value: Value,
    gathered: &mut Vec<Value>,
) -> Result<(), AllocError>
    ensures { OnOk result (contents_of_all gathered.new.items ≡ join (contents_of_all gathered.old.items) (gathered_at fold (contents entry.now) (contents value))) }
{
    match fold {
        Folding::EachValue => put(gathered, value),
        Folding::ThoseTrue => {
            if is_true(&value) {
                return put(gathered, try_clone(entry, alloc)?);
            }
            Ok(())
        }
        Folding::CountTrue => {
            if is_true(&value) {
                return put(gathered, value);
            }
            Ok(())
        }
        Folding::AllTrue | Folding::AnyTrue => Ok(()),
    }
}

/// The answer, once all entries were looked at or not.
pub fn finished(
    alloc: Global,
    fold: Folding,
    all: bool,
    gathered: Vec<Value>,
) -> Result<Value, CallFault>
    ensures { (s : State) → AllKnownIn (named s.names) gathered.items → Evaluates plain AllKnown result s s (λ names. finished fold all (plain_of_all names gathered.items)) }
{
    match fold {
        Folding::EachValue | Folding::ThoseTrue => list_of(alloc, gathered),
        Folding::AllTrue => Ok(Value::Bool(all)),
        Folding::AnyTrue => Ok(Value::Bool(!all)),
        Folding::CountTrue => Ok(Value::Int(gathered.len() as i64)),
    }
}

/// The entries of a list, where there is one.
pub fn entries_if(v: Option<Value>) -> Result<Items, CallFault>
    ensures { (s : State) → known_if (named s.names) v → Evaluates plain_items known_items result s s (λ names. listed_if (plain_if names v) (λ ds. gives ds)) }
{
    match v {
        Some(value) => entries(value),
        None => Err(CallFault::Script(Fault::WrongType)),
    }
}
